// A process leaves its group's log and joins another group: what of a move may find no memory.
ghost use Rattle.std.specs.Prelude.{◌≡◌, ◌++◌, ◌&&◌, Some, IsSome, OnOk, OnErr, length, take};
ghost use Rattle.group_record.specs.declared.Group.{Group as TheGroup};
ghost use Rattle.group_record.specs.Groups.{joined, left};
ghost use Rattle.group_record.specs.Members.{has_member};
ghost use Rattle.sig_stream.specs.Streams.{signals_for, stream};
ghost use Rattle.ordered_table.specs.Entries.{value_at, with_each};
ghost use Rattle.record_bag.specs.Bags.{present, group_in};
ghost use Rattle.process_table.specs.Rows.{is_same};
ghost use Rattle.decide_law.specs.Effects.{only, or_empty, settled_for};
ghost use Rattle.ops_groups.specs.Move.{moved_vproc};
ghost use Rattle.ops_groups.specs.MethodMove.{in_session, joined_to, joined_bag};

use crate::mover::{Mover, Place};
use crate::settling::{Caller, groups_rise, take_out};
use group_record::{Group, LogEntry, Member, Members};
use ordered_table::Table;
use record_bag::Bag;
use std::alloc::Global;
use unix_names::{NoMemory, Pid, Seq, Signal};
use vproc_record::Vproc;

// ---- what the old log has for the process
fn take_part(
    backlog: &mut Seq<Signal>,
    entries: &[LogEntry],
    p: Pid,
    uid: u32,
) -> Result<(), NoMemory>
    ensures ok { OnOk result (backlog.new ≡ backlog.old ++ signals_for p uid entries.now) }
    ensures kept { take (length backlog.old) backlog.new ≡ backlog.old }
{
    for e in entries {
        if e.concerns(p, uid) {
            backlog.push(e.signal)?;
        }
    }
    Ok(())
}

// Whether the process is the caller, and the group its own, whose log has nothing more for it.
fn has_taken(by: Caller, pid: Pid, group: Pid, old: &Group) -> bool
    ensures { result ≡ (is_same by.pid pid && (is_same by.group group && has_member old.now.members pid)) }
{
    by.pid == pid && by.group == group && old.has_member(pid)
}

// It goes to the end of the backlog; there is none of the caller's, which has taken its own. After NoMemory the record is as before.
fn take_old_part(by: Caller, w: &mut Vproc, group: Pid, old: &Group) -> Result<(), NoMemory>
    ensures ok { OnOk result (w.new ≡ record w.old { backlog = stream w.old (only by.group (settled_for by.pid) group old.now) }) }
    ensures err { OnErr result (w.new ≡ w.old) }
{
    if has_taken(by, w.pid, group, old) {
        return Ok(());
    }
    let kept = w.backlog.len();
    let pid = w.pid;
    let uid = w.uid;
    let taken = take_part(&mut w.backlog, old.part_of(pid), pid, uid);
    if taken.is_err() {
        w.backlog.truncate(kept);
    }
    taken
}

// ---- the new group
// The process is a member once, the last, whose part of the log begins at its end. After NoMemory the group is as before.
fn join_last(g: &mut Group, m: &Mover) -> Result<(), NoMemory>
    ensures ok { OnOk result (g.new ≡ joined (left g.old m.now.pid) m.now.pid m.now.uid) }
    ensures err { OnErr result (g.new ≡ g.old) }
{
    let from = g.log.len() as u64;
    g.members.move_last(Member {
        pid: m.pid,
        from,
        uid: m.uid,
    })
}

fn empty_group(alloc: Global, to: Place) -> Group
    ensures { result ≡ or_empty to.group to.session None }
{
    Group {
        id: to.group,
        session: to.session,
        members: Members::new(alloc),
        log: Seq::new(alloc),
        links: 0,
        stopped: 0,
    }
}

// The process joins the group at its place, if that is held; where it is absent it begins. After NoMemory the groups are as before.
fn join_in(
    alloc: Global,
    m: &Mover,
    to: Place,
    groups: &mut Table<Option<Group>>,
) -> Result<(), NoMemory>
    ensures ok { OnOk result (groups.new ≡ with_each (only to.group (joined_to m.now (in_session to))) groups.old) }
    ensures err { OnErr result (groups.new ≡ groups.old) }
{
    groups_rise(groups);
    if !groups.has(to.group) {
        return Ok(());
    }
    match groups.replace(to.group, None) {
        Some(mut g) => {
            let joined = join_last(&mut g, m);
            groups.replace(to.group, Some(g));
            joined
        }
        None => {
            let mut g = empty_group(alloc, to);
            join_last(&mut g, m)?;
            groups.replace(to.group, Some(g));
            Ok(())
        }
    }
}

// ---- the record and the group
// The record of the process tells of its place, where it is a member. After NoMemory the record and the groups are as before.
fn go(
    alloc: Global,
    by: Caller,
    w: &mut Vproc,
    m: &Mover,
    to: Place,
    groups: &mut Table<Option<Group>>,
) -> Result<(), NoMemory>
    requires { IsSome (present (value_at groups.old m.now.group)) }
    ensures vproc { (old : TheGroup) → present (value_at groups.old m.now.group) ≡ Some old → OnOk result (w.new ≡ moved_vproc (only by.group (settled_for by.pid) m.now.group old) (in_session to) w.old) }
    ensures groups { OnOk result (groups.new ≡ with_each (only to.group (joined_to m.now (in_session to))) groups.old) }
    ensures err_vproc { OnErr result (w.new ≡ w.old) }
    ensures err_groups { OnErr result (groups.new ≡ groups.old) }
{
    let Some(Some(old)) = groups.get(m.group) else {
        unreachable!();
    };
    let had = w.backlog.len();
    take_old_part(by, w, m.group, old)?;
    if join_in(alloc, m, to, groups).is_err() {
        w.backlog.truncate(had);
        return Err(NoMemory);
    }
    w.group = to.group;
    w.session = to.session;
    Ok(())
}

/// The process is a member of the group at its place too, and its record tells of that and has what the old log had for it. The new group begins where it is absent.
///
/// # Errors
/// NoMemory where there is no room for the signals, or for the member; the bag is as before.
pub fn join(alloc: Global, by: Caller, m: &Mover, to: Place, bag: &mut Bag) -> Result<(), NoMemory>
    requires { IsSome (group_in bag.old m.now.group) }
    ensures ok { (old : TheGroup) → group_in bag.old m.now.group ≡ Some old → OnOk result (bag.new ≡ joined_bag bag.old m.now (only by.group (settled_for by.pid) m.now.group old) (in_session to)) }
    ensures err { OnErr result (bag.new ≡ bag.old) }
{
    let Some(mut w) = take_out(&mut bag.vprocs, m.pid) else {
        return join_in(alloc, m, to, &mut bag.groups);
    };
    let gone = go(alloc, by, &mut w, m, to, &mut bag.groups);
    bag.vprocs.replace(m.pid, Some(w));
    gone
}
