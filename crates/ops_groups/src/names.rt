// The names that a call on groups is decided on and that lack.
ghost use Rattle.std.specs.Prelude.{◌≡◌, ◌∷◌, ◌++◌, [], OnOk, IfOk, if◌then◌else◌, is_some};
ghost use Rattle.unix_calls.specs.Calls.{IsName};
ghost use Rattle.process_table.specs.Rows.{is_same};
ghost use Rattle.decide_law.specs.Told.{early_refusal, target_in};
ghost use Rattle.unix_calls.specs.declared.Call.TheVariants as calls;
ghost use Rattle.decide_law.specs.Footprints.{parent_name, living_children_footprint, move_footprint, regroup_footprint, setpgid_footprint, call_footprint};
ghost use Rattle.decide_law.specs.MethodNeeds.{wanted};

use crate::refused::{early_refusal, has_child, target_pid, wanted_group};
use decide_law::{want, want_living_children};
use record_bag::Bag;
use std::alloc::Global;
use unix_names::{Name, NoMemory, Pid, SYSTEM, Seq};
use vproc_record::Vproc;

// The parent, unless it is the system process. After NoMemory the names are as before.
fn want_parent(names: &mut Seq<Name>, bag: &Bag, v: &Vproc) -> Result<(), NoMemory>
    ensures { OnOk result (names.new ≡ wanted bag.now (parent_name v.now) names.old) }
{
    if v.parent == SYSTEM {
        Ok(())
    } else {
        want(names, bag, Name::V(v.parent))
    }
}

// The parent and the children, and the groups of the children that live. After NoMemory some of them may stand among the names.
fn want_family(names: &mut Seq<Name>, bag: &Bag, v: &Vproc) -> Result<(), NoMemory>
    ensures { OnOk result (names.new ≡ wanted bag.now (parent_name v.now ++ living_children_footprint bag.now v.now) names.old) }
{
    want_parent(names, bag, v)?;
    want_living_children(names, bag, v.children.as_slice())
}

/// The names for setsid: the group of the caller's own pid; once it is known that there is none, the caller's parent and children, and the groups of the children that live.
///
/// # Errors
/// NoMemory where there is no room for a name.
pub fn setsid_names(alloc: Global, bag: &Bag, v: &Vproc) -> Result<Seq<Name>, NoMemory>
    ensures { IfOk result (λ names. names ≡ wanted bag.now (call_footprint bag.now v.now calls.Setsid) []) }
{
    let mut names = Seq::new(alloc);
    want(&mut names, bag, Name::G(v.pid))?;
    if let Some(None) = bag.groups.get(v.pid) {
        want_family(&mut names, bag, v)?;
    }
    Ok(names)
}

// What a move takes: both groups, the parent of the caller where the caller moves, and the children with the groups of those that live. After NoMemory some of them may stand among the names.
fn want_move(
    names: &mut Seq<Name>,
    bag: &Bag,
    v: &Vproc,
    u: &Vproc,
    new: Pid,
) -> Result<(), NoMemory>
    ensures { OnOk result (names.new ≡ wanted bag.now (move_footprint bag.now v.now u.now new) names.old) }
{
    want(names, bag, Name::G(u.group))?;
    want(names, bag, Name::G(new))?;
    if u.pid == v.pid {
        want_parent(names, bag, u)?;
    }
    want_living_children(names, bag, u.children.as_slice())
}

// The target, where it is the caller or a child of it; and what its move takes, where its record refuses nothing. After NoMemory some of them may stand among the names.
fn want_regroup(
    names: &mut Seq<Name>,
    bag: &Bag,
    v: &Vproc,
    t: Pid,
    new: Pid,
) -> Result<(), NoMemory>
    ensures { OnOk result (names.new ≡ wanted bag.now (regroup_footprint bag.now v.now t new) names.old) }
{
    if t == v.pid || has_child(v, t) {
        want(names, bag, Name::V(t))?;
    }
    if early_refusal(bag, v, t).is_some() {
        return Ok(());
    }
    if t == v.pid {
        return want_move(names, bag, v, v, new);
    }
    match bag.vproc(t) {
        None => Ok(()),
        Some(u) => want_move(names, bag, v, u, new),
    }
}

/// The names for setpgid: the target, where it is the caller or a child of it; and where its record refuses nothing its group and the new one, its parent where it is the caller, and its children with the groups of those that live.
///
/// # Errors
/// NoMemory where there is no room for a name.
pub fn setpgid_names(
    alloc: Global,
    bag: &Bag,
    v: &Vproc,
    target: u32,
    group: i64,
) -> Result<Seq<Name>, NoMemory>
    requires { IsName group }
    ensures { IfOk result (λ names. names ≡ wanted bag.now (setpgid_footprint bag.now v.now target group) []) }
{
    let mut names = Seq::new(alloc);
    if group >= 0 {
        let new = wanted_group(v, target, group as u32);
        want_regroup(&mut names, bag, v, target_pid(v, target), new)?;
    }
    Ok(names)
}
