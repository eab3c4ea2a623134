// The event that comes first, and what it does.
ghost use Rattle.std.specs.Prelude.{◌≡◌, ◌==◌, Some, IfOk, OnErr};
ghost use Rattle.vproc_record.specs.declared.Vproc.{Vproc as TheVproc};
ghost use Rattle.group_record.specs.declared.Group.{Group as TheGroup};
ghost use Rattle.record_bag.specs.Decisions.{answered};
ghost use Rattle.decide_law.specs.Agrees.{vproc_at, group_at};
ghost use Rattle.decide_law.specs.Base.{HasBase};
ghost use Rattle.decide_law.specs.Effects.{on_base};
ghost use Rattle.decide_law.specs.Footprints.{is_orphaned, coming};
ghost use Rattle.ops_deliver.specs.Events.{event_answer};
ghost use Rattle.decide_law.specs.Vector.{IsFitting};
ghost use Rattle.ops_vector.specs.Answer.{event_effect};

use kernel_choice::first_event_of;
use ops_deliver::deliver_part;
use ops_ending::decide_killed;
use record_bag::{Bag, Outcome};
use signal_state::Own;
use std::alloc::Global;
use unix_calls::Event;
use unix_names::{NoMemory, Pid};

// Whether the group of a process is orphaned, where both records are held.
fn is_orphaned(pid: Pid, own: &Own, bag: &Bag) -> bool
    requires { HasBase own.now pid bag.now }
    ensures { (v : TheVproc) (g : TheGroup) → vproc_at bag.now pid ≡ Some (Some v) → group_at bag.now v.group ≡ Some (Some g) → result ≡ is_orphaned g }
{
    let Some(v) = bag.vproc(pid) else {
        unreachable!();
    };
    let Some(g) = bag.group(v.group) else {
        unreachable!();
    };
    g.links == 0
}

/// The event that comes first to a process that carries this once it has taken its stream.
pub fn first_event(pid: Pid, own: &Own, folded: &Own, bag: &Bag) -> Option<Event>
    requires base { HasBase own.now pid bag.now }
    requires fits { IsFitting pid own.now bag.now }
    requires folded { (v : TheVproc) (g : TheGroup) → vproc_at bag.now pid ≡ Some (Some v) → group_at bag.now v.group ≡ Some (Some g) → folded.now ≡ Rattle.decide_law.specs.Effects.folded own.now v g }
    ensures { (v : TheVproc) (g : TheGroup) → vproc_at bag.now pid ≡ Some (Some v) → group_at bag.now v.group ≡ Some (Some g) → result ≡ coming own.now v g }
{
    first_event_of(&folded.sig, is_orphaned(pid, own, bag))
}

/// What the event that comes first does.
///
/// # Errors
/// NoMemory, after which the bag is as before.
pub fn happen(
    alloc: Global,
    pid: Pid,
    event: Event,
    own: &Own,
    bag: &mut Bag,
) -> Result<Outcome, NoMemory>
    requires base { HasBase own.now pid bag.old }
    requires fits { IsFitting pid own.now bag.old }
    requires comes { (v : TheVproc) (g : TheGroup) → vproc_at bag.old pid ≡ Some (Some v) → group_at bag.old v.group ≡ Some (Some g) → coming own.now v g ≡ Some event }
    ensures answer { (v : TheVproc) (g : TheGroup) → vproc_at bag.old pid ≡ Some (Some v) → group_at bag.old v.group ≡ Some (Some g) → IfOk result (λ outcome. answered outcome bag.new ≡ event_answer event (event_effect event) own.now bag.old pid v g) }
    ensures err { OnErr result (bag.new ≡ bag.old) }
{
    match event {
        Event::EndedBy(signal) => decide_killed(alloc, pid, signal, own, bag),
        Event::Moved => unreachable!(),
        _ => deliver_part(alloc, pid, event, own, bag),
    }
}
