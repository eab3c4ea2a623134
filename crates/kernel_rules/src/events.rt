// When a process may call, what may happen to it without a call of its own, and what that changes (POSIX.1-2017, XSH 2.4).
ghost use Rattle.std.specs.Prelude.{◌≡◌, map, OnOk, OnErr};
ghost use Rattle.process_table.specs.Rows.{row_of};
ghost use Rattle.process_table.specs.Changes.{changed_at, IsAllowed, received};
ghost use Rattle.kernel_rules.specs.Ending.{sent_to_parent};
ghost use Rattle.kernel_rules.specs.Events.{can_call, is_deliverable_in, has_default_action_in, acts_by_default_in, is_caught_in, is_stop_signal, is_plain_stop, has_terminal_stop, is_spared_in, is_spared, is_discarded_in, stops_in, ends_in, may_happen, after_event};

use crate::ending::{end, signal_parent};
use process_table::{Change, ProcessTable, Row};
use signal_state::{Sig, is_ignored_by_default};
use unix_calls::Event;
use unix_names::{DefaultAct, NoMemory, Pid, Signal, WaitStatus, default_of};

/// Whether a process is not stopped and nothing is deliverable to it.
pub fn can_call(row: &Row) -> bool
    ensures { result ≡ can_call row.now }
{
    !row.sig.stopped && row.sig.deliverable().is_empty()
}

fn acts_by_default(sig: &Sig, signal: Signal) -> bool
    ensures { result ≡ acts_by_default_in sig.now signal }
{
    sig.deliverable().has(signal) && !sig.ignored.has(signal) && !sig.caught.has(signal)
}

/// Whether a signal is deliverable to a process and its action is to catch it.
pub fn is_caught(sig: &Sig, signal: Signal) -> bool
    ensures { result ≡ is_caught_in sig.now signal }
{
    sig.deliverable().has(signal) && sig.caught.has(signal)
}

fn is_stop_signal(signal: Signal) -> bool
    ensures { result ≡ is_stop_signal signal }
{
    matches!(default_of(signal), DefaultAct::StopIt)
}

/// Whether a stop signal from a terminal is deliverable to a process. What it does hangs on whether the process's group is orphaned.
pub fn has_terminal_stop(row: &Row) -> bool
    ensures { result ≡ has_terminal_stop row.now }
{
    let deliverable = row.sig.deliverable();
    deliverable.has(Signal::Tstp) || deliverable.has(Signal::Ttin) || deliverable.has(Signal::Ttou)
}

/// The row of a process. Where what may happen to it hangs on whether its group is orphaned, the table notes that.
pub fn look_up(table: &mut ProcessTable, pid: Pid) -> Option<Row>
    ensures row { result ≡ row_of table.old pid }
    ensures same { table.new ≡ table.old }
{
    let row = table.find(pid)?;
    if has_terminal_stop(&row) {
        table.note_orphaned(row.group);
    }
    Some(row)
}

/// Whether a signal is deliverable and its default action does nothing to a process whose group is orphaned, or isn't.
pub fn is_discarded(sig: &Sig, orphaned: bool, signal: Signal) -> bool
    ensures { result ≡ is_discarded_in sig.now orphaned signal }
{
    let is_spared = is_stop_signal(signal) && signal != Signal::Stop && orphaned;
    acts_by_default(sig, signal) && (is_ignored_by_default(signal) || is_spared)
}

/// Whether a signal is deliverable and its default action stops the process. A stop signal from a terminal stops no member of an orphaned group.
pub fn stops(sig: &Sig, orphaned: bool, signal: Signal) -> bool
    ensures { result ≡ stops_in sig.now orphaned signal }
{
    acts_by_default(sig, signal) && is_stop_signal(signal) && (signal == Signal::Stop || !orphaned)
}

fn ends(sig: &Sig, signal: Signal) -> bool
    ensures { result ≡ ends_in sig.now signal }
{
    acts_by_default(sig, signal) && matches!(default_of(signal), DefaultAct::End)
}

/// Whether the signal is a stop signal from a terminal and the process's group is orphaned.
fn is_spared(table: &ProcessTable, row: &Row, signal: Signal) -> bool
    ensures { result ≡ is_spared table.now row.now signal }
{
    is_stop_signal(signal) && signal != Signal::Stop && table.is_orphaned(row.group)
}

/// Whether an event may happen to a process.
#[tactic(auto, using(crate::proofs::SparedLaws::discarded_same, crate::proofs::SparedLaws::stops_same))]
pub fn may_happen(table: &ProcessTable, row: &Row, event: Event) -> bool
    ensures { result ≡ may_happen table.now row.now event }
{
    match event {
        Event::Caught(signal) => is_caught(&row.sig, signal),
        Event::Discarded(signal) => is_discarded(&row.sig, is_spared(table, row, signal), signal),
        Event::StoppedBy(signal) => stops(&row.sig, is_spared(table, row, signal), signal),
        Event::EndedBy(signal) => ends(&row.sig, signal),
        Event::Continued => row.sig.due,
        Event::Moved => can_call(row),
    }
}

/// Changes the row of a process, and generates the signal of that for its parent.
fn change_and_tell(table: &mut ProcessTable, row: &Row, change: &Change)
    requires { IsAllowed change.now }
    ensures { table.new ≡ received (sent_to_parent row.now) (map (changed_at row.now.pid change.now) table.old) }
{
    table.change_row(row.pid, change);
    signal_parent(table, row);
}

/// Changes the table as an event says.
pub fn happen(table: &mut ProcessTable, row: &Row, event: Event) -> Result<(), NoMemory>
    ensures ok { OnOk result (table.new ≡ after_event table.old row.now event) }
    ensures err { OnErr result (table.new ≡ table.old) }
{
    match event {
        Event::Caught(signal) | Event::Discarded(signal) => {
            table.change_row(row.pid, &Change::Delivered(signal));
        }
        Event::StoppedBy(signal) => change_and_tell(table, row, &Change::Stopped(signal)),
        Event::EndedBy(signal) => end(table, row, WaitStatus::Killed(signal))?,
        Event::Continued => change_and_tell(table, row, &Change::Continued),
        Event::Moved => {}
    }
    Ok(())
}
