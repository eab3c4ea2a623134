// Whom an end nudges: the parent, and the members of the groups that it leaves orphaned with a stopped member.
ghost use Rattle.std.specs.Prelude.{◌≡◌, ◌==◌, ◌≤◌, ◌++◌, ◌∷◌, [], length, IfOk, OnOk, if◌then◌else◌};
ghost use Rattle.ops_ending.specs.MethodEnding.{others_left, nudged_by, nudges_in};

use crate::left_groups::is_left_orphaned;
use crate::left_vprocs::{End, goes_at};
use group_record::{Group, Member};
use record_bag::Bag;
use std::alloc::Global;
use unix_names::{NoMemory, Pid, Seq};

fn add_others(
    nudges: &mut Seq<Pid>,
    bag: &Bag,
    end: End,
    members: &[Member],
) -> Result<(), NoMemory>
    ensures { OnOk result (nudges.new ≡ nudges.old ++ others_left bag.now end.pid end.vanishes members.now) }
{
    for m in members {
        if !goes_at(bag, end, m.pid) && m.pid != end.pid {
            nudges.push(m.pid)?;
        }
    }
    Ok(())
}

fn add_group(
    nudges: &mut Seq<Pid>,
    bag: &Bag,
    near: &[Pid],
    end: End,
    id: Pid,
    held: &Option<Group>,
) -> Result<(), NoMemory>
    requires { length near.now ≤ 65 }
    ensures { OnOk result (nudges.new ≡ nudges.old ++ nudged_by bag.now near.now end id held.now) }
{
    if let Some(g) = held {
        if is_left_orphaned(bag, near, end, id) {
            add_others(nudges, bag, end, g.members.as_slice())?;
        }
    }
    Ok(())
}

fn add_groups(nudges: &mut Seq<Pid>, bag: &Bag, near: &[Pid], end: End) -> Result<(), NoMemory>
    requires { length near.now ≤ 65 }
    ensures { OnOk result (nudges.new ≡ nudges.old ++ nudges_in bag.now near.now end bag.now.groups) }
{
    for held in bag.groups.as_slice() {
        add_group(nudges, bag, near, end, held.pid, &held.value)?;
    }
    Ok(())
}

/// The parent, unless it is the system process; then, group by group, the members that the end leaves in groups that it leaves orphaned.
pub fn end_nudges(alloc: Global, bag: &Bag, near: &[Pid], end: End) -> Result<Seq<Pid>, NoMemory>
    requires { length near.now ≤ 65 }
    ensures { IfOk result (λ nudges. nudges ≡ (if end.parent.0 == 1 then [] else end.parent ∷ []) ++ nudges_in bag.now near.now end bag.now.groups) }
{
    let mut nudges = Seq::new(alloc);
    if end.parent.0 != 1 {
        nudges.push(end.parent)?;
    }
    add_groups(&mut nudges, bag, near, end)?;
    Ok(nudges)
}
