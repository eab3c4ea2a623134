// An event of this part.
ghost use Rattle.std.specs.Prelude.{◌≡◌, ◌<◌, Some, IfOk, OnErr};
ghost use Rattle.vproc_record.specs.declared.Vproc.{Vproc as TheVproc};
ghost use Rattle.group_record.specs.declared.Group.{Group as TheGroup};
ghost use Rattle.record_bag.specs.Decisions.{answered};
ghost use Rattle.decide_law.specs.Agrees.{vproc_at, group_at};
ghost use Rattle.decide_law.specs.Base.{HasBase};
ghost use Rattle.ops_deliver.specs.Events.{event_answer};
ghost use Rattle.ops_deliver.specs.Decide.{IsDelivered, effect_of};

use crate::taking::{discard, take};
use crate::turn::{go_on, stop};
use record_bag::{Bag, Outcome};
use signal_state::Own;
use std::alloc::Global;
use unix_calls::Event;
use unix_names::{NoMemory, Pid};

/// Decides an event that comes first: a signal is caught or discarded, or the process stops or continues.
///
/// # Errors
/// NoMemory where there is no room for the names that are asked for, for a nudge or for the parent's signal; the bag is as before.
pub fn deliver_part(
    alloc: Global,
    pid: Pid,
    event: Event,
    own: &Own,
    bag: &mut Bag,
) -> Result<Outcome, NoMemory>
    requires base { HasBase own.now pid bag.old }
    requires part { IsDelivered event }

    // The count of stopped members has room for one more.
    requires few { (v : TheVproc) (g : TheGroup) → vproc_at bag.old pid ≡ Some (Some v) → group_at bag.old v.group ≡ Some (Some g) → g.stopped < 1000000 }
    ensures answer { (v : TheVproc) (g : TheGroup) → vproc_at bag.old pid ≡ Some (Some v) → group_at bag.old v.group ≡ Some (Some g) → IfOk result (λ outcome. answered outcome bag.new ≡ event_answer event (effect_of event) own.now bag.old pid v g) }
    ensures err { OnErr result (bag.new ≡ bag.old) }
{
    match event {
        Event::Caught(signal) => Ok(take(alloc, pid, event, signal, own, bag)),
        Event::Discarded(signal) => discard(alloc, pid, signal, own, bag),
        Event::StoppedBy(signal) => stop(alloc, pid, signal, own, bag),
        Event::Continued => go_on(alloc, pid, own, bag),
        Event::EndedBy(_) | Event::Moved => unreachable!(),
    }
}
