// The records once a process has gone to another group, changed in place.
ghost use Rattle.std.specs.Prelude.{◌≡◌, ◌≤◌, Some, IsSome, OnOk, OnErr, length};
ghost use Rattle.unix_names.specs.declared.Pid.{Pid as ThePid};
ghost use Rattle.group_record.specs.declared.Group.{Group as TheGroup};
ghost use Rattle.ordered_table.specs.Entries.{value_at};
ghost use Rattle.record_bag.specs.Bags.{present, group_in};
ghost use Rattle.vproc_record.specs.declared.Vproc.{Vproc as TheVproc};
ghost use Rattle.decide_law.specs.Effects.{unless_empty};
ghost use Rattle.ops_groups.specs.MethodMove.{in_session, mover_of, IsCountedIn, regrouped_by, with_counts, group_settled, moved_bag};

use crate::joining::join;
use crate::mover::{Mover, Place};
use crate::settling::{Caller, settle_group};
use crate::tallies::{Counts, counts_by_group, recount};
use group_record::Group;
use ordered_table::Table;
use record_bag::Bag;
use std::alloc::Global;
use std::mem;
use unix_names::{NoMemory, Pid};

// A group without members is absent.
fn unless_empty(g: Group) -> Option<Group>
    ensures { result ≡ unless_empty g }
{
    if g.is_empty() { None } else { Some(g) }
}

// A group once the process has joined the new one: it leaves this one, unless it is that.
fn regrouped(
    later: &Bag,
    m: &Mover,
    to: Pid,
    before: Counts,
    id: Pid,
    held: Option<Group>,
) -> Option<Group>
    requires near { length m.now.near ≤ 65 }
    requires counted { IsCountedIn held }
    ensures { result ≡ regrouped_by before later.now m.now to id held }
{
    let Some(mut g) = held else {
        return None;
    };
    recount(later, m.near.as_slice(), before, id, &mut g);
    if to != id {
        g.leave(m.pid);
    }
    unless_empty(g)
}

// One group after another. What processes have become is told by the later bag, whose groups are not looked at.
fn regroup_each(
    later: &Bag,
    m: &Mover,
    to: Pid,
    before: &[Counts],
    groups: &mut Table<Option<Group>>,
)
    requires near { length m.now.near ≤ 65 }
    requires counted { (id : ThePid) → IsCountedIn (present (value_at groups.old id)) }
    requires each { length before.now ≡ length groups.old }
    ensures { groups.new ≡ with_counts (λ counts. regrouped_by counts later.now m.now to) before.now groups.old }
{
    for at in 0..groups.as_slice().len() {
        let id = groups.as_slice()[at].pid;
        let held = groups.replace_at(at, None);
        let left = regrouped(later, m, to, before[at], id, held);
        groups.replace_at(at, left);
    }
}

// Each group that is held, once the process has joined the new one.
fn regroup(alloc: Global, m: &Mover, to: Pid, before: &[Counts], bag: &mut Bag)
    requires near { length m.now.near ≤ 65 }
    requires counted { (id : ThePid) → IsCountedIn (group_in bag.old id) }
    requires each { length before.now ≡ length bag.old.groups }
    ensures { bag.new ≡ record bag.old { groups = with_counts (λ counts. regrouped_by counts bag.old m.now to) before.now bag.old.groups } }
{
    let mut groups = mem::replace(&mut bag.groups, Table::new(alloc));
    regroup_each(bag, m, to, before, &mut groups);
    bag.groups = groups;
}

/// A process goes from its old group to this place, and the caller has taken its part of the log of its group: the record of the process changes, and those of the groups with their members and counts.
///
/// # Errors
/// NoMemory where there is no room for the counts, the signals or the member; the bag is as before.
pub fn move_in(
    alloc: Global,
    by: Caller,
    m: &Mover,
    to: Place,
    bag: &mut Bag,
) -> Result<(), NoMemory>
    requires near { length m.now.near ≤ 65 }
    requires old { IsSome (group_in bag.old m.now.group) }
    requires counted { (id : ThePid) → IsCountedIn (group_in bag.old id) }
    ensures ok { (u : TheVproc) (old : TheGroup) → m.now ≡ mover_of u → group_in (group_settled by.pid by.group bag.old) u.group ≡ Some old → OnOk result (bag.new ≡ moved_bag (group_settled by.pid by.group bag.old) u old (in_session to)) }
    ensures err { OnErr result (bag.new ≡ bag.old) }
{
    let before = counts_by_group(alloc, bag, m.near.as_slice())?;
    join(alloc, by, m, to, bag)?;
    settle_group(by, bag);
    regroup(alloc, m, to.group, before.as_slice(), bag);
    Ok(())
}
