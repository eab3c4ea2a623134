// The event that happens first.
ghost use Rattle.std.specs.Prelude.{◌≡◌, ◌↔◌, ◌&&◌, IsNone};
ghost use Rattle.signal_state.specs.Sig.{IsClear};
ghost use Rattle.kernel_rules.specs.Events.{is_deliverable_in, acts_by_default_in, is_caught_in, is_stop_signal, is_plain_stop, is_spared_in, is_discarded_in, stops_in, has_terminal_stop_in};
ghost use Rattle.kernel_choice.specs.Choice.{event_in, least_in, first_event_of, first_event};
ghost use Rattle.process_table.specs.Orphans.{is_orphaned};

use kernel_rules::{has_terminal_stop, is_caught, is_discarded, stops};
use process_table::{ProcessTable, Row};
use signal_state::Sig;
use unix_calls::Event;
use unix_names::Signal;

/// What a deliverable signal does to a process whose group is orphaned, or isn't.
fn event_in(sig: &Sig, orphaned: bool, signal: Signal) -> Event
    ensures { result ≡ event_in sig.now orphaned signal }
{
    if is_caught(sig, signal) {
        Event::Caught(signal)
    } else if is_discarded(sig, orphaned, signal) {
        Event::Discarded(signal)
    } else if stops(sig, orphaned, signal) {
        Event::StoppedBy(signal)
    } else {
        Event::EndedBy(signal)
    }
}

/// The event that happens first to a process with these signals, whose group is orphaned, or isn't: killing, then continuing, then that of the deliverable signal with the least number. None exactly where nothing is deliverable and no continuing is due.
pub fn first_event_of(sig: &Sig, orphaned: bool) -> Option<Event>
    ensures event { result ≡ first_event_of sig.now orphaned }
    ensures none { IsNone result ↔ IsClear sig.now }
{
    let deliverable = sig.deliverable();
    if deliverable.has(Signal::Kill) {
        return Some(Event::EndedBy(Signal::Kill));
    }
    if sig.due {
        return Some(Event::Continued);
    }
    let signal = deliverable.least()?;
    Some(event_in(sig, orphaned, signal))
}

/// The event that happens first to a process. Whether its group is orphaned is asked only where that matters.
#[tactic(auto, using(crate::proofs::OrphanedLaws::first_same))]
pub fn first_event(table: &ProcessTable, row: &Row) -> Option<Event>
    ensures event { result ≡ first_event table.now row.now }
    ensures none { IsNone result ↔ IsClear row.now.sig }
{
    let orphaned = has_terminal_stop(row) && table.is_orphaned(row.group);
    first_event_of(&row.sig, orphaned)
}
