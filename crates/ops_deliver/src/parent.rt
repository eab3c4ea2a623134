// The parent of a process, which is told that it stops or continues.
ghost use Rattle.std.specs.Prelude.{◌≡◌, ◌==◌, ◌∷◌, [], None, Some, IsSome, IfSome, IfOk, if◌then◌else◌};
ghost use Rattle.vproc_record.specs.declared.Vproc.{Vproc as TheVproc};
ghost use Rattle.record_bag.specs.Bags.{vproc_in};
ghost use Rattle.decide_law.specs.Agrees.{vproc_at, group_at};
ghost use Rattle.decide_law.specs.Base.{HasBase};
ghost use Rattle.decide_law.specs.Footprints.{with_group, parent_footprint};
ghost use Rattle.decide_law.specs.MethodNeeds.{wanted};
ghost use Rattle.ops_deliver.specs.MethodTurn.{group_told};

use decide_law::want;
use record_bag::Bag;
use signal_state::Own;
use std::alloc::Global;
use unix_names::{Name, NoMemory, Pid, SYSTEM, Seq};

/// The parent of a process whose record is held.
pub fn parent_of(pid: Pid, own: &Own, bag: &Bag) -> Pid
    requires { HasBase own.now pid bag.now }
    ensures { (v : TheVproc) → vproc_at bag.now pid ≡ Some (Some v) → result ≡ v.parent }
{
    match bag.vproc(pid) {
        Some(v) => v.parent,
        None => unreachable!(),
    }
}

// A process with the group that its record tells, those of the two names that are not held.
fn group_needs(alloc: Global, up: Pid, bag: &Bag) -> Result<Seq<Name>, NoMemory>
    ensures { IfOk result (λ names. names ≡ wanted bag.now (with_group bag.now up) []) }
{
    let mut names = Seq::new(alloc);
    want(&mut names, bag, Name::V(up))?;
    if let Some(parent) = bag.vproc(up) {
        want(&mut names, bag, Name::G(parent.group))?;
    }
    Ok(names)
}

/// The names of the parent and of its group that are not held; the system process has none.
pub fn parent_needs(alloc: Global, pid: Pid, own: &Own, bag: &Bag) -> Result<Seq<Name>, NoMemory>
    requires { HasBase own.now pid bag.now }
    ensures { (v : TheVproc) → vproc_at bag.now pid ≡ Some (Some v) → IfOk result (λ names. names ≡ wanted bag.now (parent_footprint bag.now v) []) }
{
    let up = parent_of(pid, own, bag);
    if up.0 == SYSTEM.0 {
        Ok(Seq::new(alloc))
    } else {
        group_needs(alloc, up, bag)
    }
}

/// The parent is nudged, where it is not the system process.
pub fn nudge_parent(alloc: Global, up: Pid) -> Result<Seq<Pid>, NoMemory>
    ensures { IfOk result (λ nudges. nudges ≡ (if up.0 == 1 then [] else up ∷ [])) }
{
    let mut nudges = Seq::new(alloc);
    if up.0 != SYSTEM.0 {
        nudges.push(up)?;
    }
    Ok(nudges)
}

/// The group in whose log the parent is told, where both are held.
pub fn group_told(up: Pid, bag: &Bag) -> Option<Pid>
    ensures group { result ≡ group_told bag.now up }
    ensures held { IfSome result (λ id. IsSome (group_at bag.now id)) }
{
    let parent = bag.vproc(up)?;
    let id = parent.group;
    if bag.groups.has(id) { Some(id) } else { None }
}
