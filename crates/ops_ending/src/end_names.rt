// The names that an end needs: the parent, the children and all their groups.
ghost use Rattle.std.specs.Prelude.{◌≡◌, [], IsSome, Some, IfOk, OnOk, flat_map};
ghost use Rattle.vproc_record.specs.declared.Vproc.{Vproc as TheVproc};
ghost use Rattle.record_bag.specs.Bags.{vproc_in};
ghost use Rattle.decide_law.specs.Footprints.{group_shown, with_group, parent_footprint, end_footprint};
ghost use Rattle.decide_law.specs.MethodNeeds.{wanted};

use decide_law::want;
use record_bag::Bag;
use std::alloc::Global;
use unix_names::{Name, NoMemory, Pid, Seq};
use vproc_record::Vproc;

fn want_group_of(names: &mut Seq<Name>, bag: &Bag, pid: Pid) -> Result<(), NoMemory>
    ensures { OnOk result (names.new ≡ wanted bag.now (group_shown (vproc_in bag.now pid)) names.old) }
{
    match bag.vproc(pid) {
        None => Ok(()),
        Some(v) => want(names, bag, Name::G(v.group)),
    }
}

fn want_with_group(names: &mut Seq<Name>, bag: &Bag, pid: Pid) -> Result<(), NoMemory>
    ensures { OnOk result (names.new ≡ wanted bag.now (with_group bag.now pid) names.old) }
{
    want(names, bag, Name::V(pid))?;
    want_group_of(names, bag, pid)
}

fn want_parent(names: &mut Seq<Name>, bag: &Bag, v: &Vproc) -> Result<(), NoMemory>
    ensures { OnOk result (names.new ≡ wanted bag.now (parent_footprint bag.now v.now) names.old) }
{
    if v.parent.0 == 1 {
        Ok(())
    } else {
        want_with_group(names, bag, v.parent)
    }
}

fn want_children(names: &mut Seq<Name>, bag: &Bag, children: &[Pid]) -> Result<(), NoMemory>
    ensures { OnOk result (names.new ≡ wanted bag.now (flat_map (with_group bag.now) children.now) names.old) }
{
    for child in children {
        want_with_group(names, bag, *child)?;
    }
    Ok(())
}

fn names_for(alloc: Global, bag: &Bag, v: &Vproc) -> Result<Seq<Name>, NoMemory>
    ensures { IfOk result (λ names. names ≡ wanted bag.now (end_footprint bag.now v.now) []) }
{
    let mut names = Seq::new(alloc);
    want_parent(&mut names, bag, v)?;
    want_children(&mut names, bag, v.children.as_slice())?;
    Ok(names)
}

/// The names that the end of a process needs and that are not held.
pub fn end_names(alloc: Global, bag: &Bag, pid: Pid) -> Result<Seq<Name>, NoMemory>
    requires { IsSome (vproc_in bag.now pid) }
    ensures { (v : TheVproc) → vproc_in bag.now pid ≡ Some v → IfOk result (λ names. names ≡ wanted bag.now (end_footprint bag.now v) []) }
{
    match bag.vproc(pid) {
        Some(v) => names_for(alloc, bag, v),
        None => unreachable!(),
    }
}
