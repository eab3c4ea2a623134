// A signal that is caught, or discarded (POSIX.1-2017, XSH 2.4.1 and 2.4.3).
ghost use Rattle.std.specs.Prelude.{◌≡◌, [], None, Some, IfOk, OnErr, if◌then◌else◌};
ghost use Rattle.vproc_record.specs.declared.Vproc.{Vproc as TheVproc};
ghost use Rattle.group_record.specs.declared.Group.{Group as TheGroup};
ghost use Rattle.unix_calls.specs.declared.Event.TheVariants as events;
ghost use Rattle.record_bag.specs.Decisions.{answered};
ghost use Rattle.kernel_rules.specs.Events.{is_stop_signal};
ghost use Rattle.decide_law.specs.Agrees.{vproc_at, group_at};
ghost use Rattle.decide_law.specs.Base.{HasBase};
ghost use Rattle.decide_law.specs.Effects.{folded, settled_in, emptied, done_by};
ghost use Rattle.decide_law.specs.Footprints.{parent_footprint};
ghost use Rattle.decide_law.specs.MethodNeeds.{wanted};
ghost use Rattle.ops_deliver.specs.Events.{event_answer};
ghost use Rattle.ops_deliver.specs.Taken.{take_effect};

use crate::parent::parent_needs;
use decide_law::{finish, is_none, settle_in};
use record_bag::{Bag, Outcome};
use signal_state::Own;
use std::alloc::Global;
use unix_calls::{Entry, Event, Phase};
use unix_names::{DefaultAct, Name, NoMemory, Pid, Seq, Signal, default_of};

/// The signal is taken out of what is pending, and no more. It takes no memory.
pub fn take(
    alloc: Global,
    pid: Pid,
    event: Event,
    signal: Signal,
    own: &Own,
    bag: &mut Bag,
) -> Outcome
    requires { HasBase own.now pid bag.old }
    ensures { (v : TheVproc) (g : TheGroup) → vproc_at bag.old pid ≡ Some (Some v) → group_at bag.old v.group ≡ Some (Some g) → answered result bag.new ≡ done_by pid v bag.old (take_effect event signal (settled_in pid v.group bag.old) (folded own.now v g).sig pid (emptied v)) }
{
    let mut own = *own;
    let group = settle_in(&mut own, pid, bag);
    own.sig.deliver(signal);
    let entry = Entry::Happened { pid, event };
    finish(alloc, own, group, bag, Some(entry), Phase::Ready)
}

fn is_stop_signal(signal: Signal) -> bool
    ensures { result ≡ is_stop_signal signal }
{
    matches!(default_of(signal), DefaultAct::StopIt)
}

// The names that a discarded signal asks for and that are not held: of a stop signal, which an orphaned group is spared, those of the parent.
fn discard_needs(
    alloc: Global,
    pid: Pid,
    signal: Signal,
    own: &Own,
    bag: &Bag,
) -> Result<Seq<Name>, NoMemory>
    requires { HasBase own.now pid bag.now }
    ensures { (v : TheVproc) → vproc_at bag.now pid ≡ Some (Some v) → IfOk result (λ names. names ≡ wanted bag.now (if is_stop_signal signal then parent_footprint bag.now v else []) []) }
{
    if is_stop_signal(signal) {
        parent_needs(alloc, pid, own, bag)
    } else {
        Ok(Seq::new(alloc))
    }
}

/// A signal is discarded.
///
/// # Errors
/// NoMemory where there is no room for the names that are asked for; the bag is as before.
pub fn discard(
    alloc: Global,
    pid: Pid,
    signal: Signal,
    own: &Own,
    bag: &mut Bag,
) -> Result<Outcome, NoMemory>
    requires { HasBase own.now pid bag.old }
    ensures answer { (v : TheVproc) (g : TheGroup) → vproc_at bag.old pid ≡ Some (Some v) → group_at bag.old v.group ≡ Some (Some g) → IfOk result (λ outcome. answered outcome bag.new ≡ event_answer (events.Discarded signal) (take_effect (events.Discarded signal) signal) own.now bag.old pid v g) }
    ensures err { OnErr result (bag.new ≡ bag.old) }
{
    let names = discard_needs(alloc, pid, signal, own, bag)?;
    if !is_none(&names) {
        return Ok(Outcome::Need(names));
    }
    Ok(take(alloc, pid, Event::Discarded(signal), signal, own, bag))
}
