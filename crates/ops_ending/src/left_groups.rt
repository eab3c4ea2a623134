// The records of groups that an end leaves. What becomes of them is told from the records of processes, none of which has changed yet.
ghost use Rattle.std.specs.Prelude.{◌≡◌, ◌==◌, ◌≤◌, ◌<◌, ◌++◌, not, length, filter, slice_get, Option, Some, OnOk, OnErr};
ghost use Rattle.record_bag.specs.Bags.{present, vproc_in, group_in};
ghost use Rattle.unix_names.specs.declared.Pid.{Pid as ThePid};
ghost use Rattle.ordered_table.specs.declared.Entry.{Entry as TheEntry};
ghost use Rattle.group_record.specs.declared.Group.{Group as TheGroup};
ghost use Rattle.group_record.specs.declared.Allow.TheVariants.{All};
ghost use Rattle.ordered_table.specs.Entries.{value_at, with_each};
ghost use Rattle.decide_law.specs.Counts.{passes, is_link_to, is_stopped_to, count_passing};
ghost use Rattle.decide_law.specs.Effects.{unless_empty};
ghost use Rattle.ops_ending.specs.Ending.{goes};
ghost use Rattle.ops_ending.specs.MethodEnding.{IsCounted, IsCountedIn, later_by, entries_of, recounted_by, is_newly_by, orphaned_by, told_by, untold_by, thinned_by, held_told_by, held_untold_by, held_thinned_by, partly, IsChangedAt};

use crate::later::{count_later_links, count_later_stopped};
use crate::left_vprocs::{End, goes_at};
use decide_law::{count_links, count_stopped};
use group_record::{Allow, Group, LogEntry, Members};
use ordered_table::Table;
use record_bag::Bag;
use unix_names::{NoMemory, Pid, Seq, Signal};

fn links_after(bag: &Bag, near: &[Pid], end: End, id: Pid, g: &Group) -> u64
    requires { length near.now ≤ 65 }
    ensures { result ≡ (recounted_by bag.now near.now end id g.now).links }
{
    let later = count_later_links(bag, end, id, near);
    let now = count_links(bag, id, near);
    (u64::from(g.links) + later as u64).saturating_sub(now as u64)
}

fn stopped_after(bag: &Bag, near: &[Pid], end: End, id: Pid, g: &Group) -> u64
    requires { length near.now ≤ 65 }
    ensures { result ≡ (recounted_by bag.now near.now end id g.now).stopped }
{
    let later = count_later_stopped(bag, end, id, near);
    let now = count_stopped(bag, id, near);
    (u64::from(g.stopped) + later as u64).saturating_sub(now as u64)
}

fn is_newly_orphaned(bag: &Bag, near: &[Pid], end: End, id: Pid, g: &Group) -> bool
    requires { length near.now ≤ 65 }
    ensures { result ≡ is_newly_by bag.now near.now end id g.now }
{
    g.links != 0
        && links_after(bag, near, end, id, g) == 0
        && stopped_after(bag, near, end, id, g) != 0
}

/// Whether the end leaves a group that is held orphaned with a stopped member. It takes no memory.
pub fn is_left_orphaned(bag: &Bag, near: &[Pid], end: End, id: Pid) -> bool
    requires { length near.now ≤ 65 }
    ensures { result ≡ orphaned_by bag.now near.now end id }
{
    match bag.group(id) {
        None => false,
        Some(g) => is_newly_orphaned(bag, near, end, id, g),
    }
}

fn is_in_group(bag: &Bag, pid: Pid, id: Pid) -> bool
    ensures { result ≡ passes (λ d. d.group.0 == id.0) (vproc_in bag.now pid) }
{
    match bag.vproc(pid) {
        None => false,
        Some(v) => v.group == id,
    }
}

fn entry(signal: Signal, target: Option<Pid>) -> LogEntry
    ensures { result ≡ record { signal = signal; target = target; allow = All } }
{
    LogEntry {
        signal,
        target,
        allow: Allow::All,
    }
}

// A log gets the parent's signal, if it is a member, and a hangup and a continue, if the group is left orphaned. After NoMemory it has got nothing.
fn send(log: &mut Seq<LogEntry>, parent: Pid, member: bool, orphaned: bool) -> Result<(), NoMemory>
    ensures ok { OnOk result (log.new ≡ log.old ++ entries_of parent member orphaned) }
    ensures err { OnErr result (log.new ≡ log.old) }
{
    let child = entry(Signal::Chld, Some(parent));
    let hangup = entry(Signal::Hup, None);
    let go_on = entry(Signal::Cont, None);
    match (member, orphaned) {
        (false, false) => {}
        (false, true) => log.extend_from_slice(&[hangup, go_on])?,
        (true, false) => log.extend_from_slice(&[child])?,
        (true, true) => log.extend_from_slice(&[child, hangup, go_on])?,
    }
    Ok(())
}

// How many entries that are.
fn count_sent(parent: Pid, member: bool, orphaned: bool) -> usize
    ensures { result ≡ length (entries_of parent member orphaned) }
{
    match (member, orphaned) {
        (false, false) => 0,
        (false, true) => 2,
        (true, false) => 1,
        (true, true) => 3,
    }
}

fn tell(bag: &Bag, near: &[Pid], end: End, id: Pid, g: &mut Group) -> Result<(), NoMemory>
    requires { length near.now ≤ 65 }
    ensures ok { OnOk result (g.new ≡ told_by bag.now near.now end id g.old) }
    ensures err { OnErr result (g.new ≡ g.old) }
{
    let member = is_in_group(bag, end.parent, id);
    let orphaned = is_newly_orphaned(bag, near, end, id, g);
    send(&mut g.log, end.parent, member, orphaned)
}

fn untell(bag: &Bag, near: &[Pid], end: End, id: Pid, g: &mut Group)
    requires { length near.now ≤ 65 }
    ensures { g.new ≡ untold_by bag.now near.now end id g.old }
{
    let member = is_in_group(bag, end.parent, id);
    let orphaned = is_newly_orphaned(bag, near, end, id, g);
    let had = g
        .log
        .len()
        .saturating_sub(count_sent(end.parent, member, orphaned));
    g.log.truncate(had);
}

// The members whose records stay.
fn keep_left(bag: &Bag, end: End, members: &mut Members)
    ensures { members.new ≡ filter (λ m. not (passes (goes end.pid end.vanishes) (vproc_in bag.now m.pid))) members.old }
{
    let mut at = 0;
    while at < members.len() {
        let pid = members.as_slice()[at].pid;
        if goes_at(bag, end, pid) {
            members.remove_at(at);
        } else {
            at += 1;
        }
    }
}

fn thin(bag: &Bag, near: &[Pid], end: End, id: Pid, g: &mut Group)
    requires near { length near.now ≤ 65 }
    requires counted { IsCounted g.old }
    ensures { g.new ≡ thinned_by bag.now near.now end id g.old }
{
    let links = links_after(bag, near, end, id, g);
    let stopped = stopped_after(bag, near, end, id, g);
    g.links = links as u32;
    g.stopped = stopped as u32;
    keep_left(bag, end, &mut g.members);
}

// A group without members is absent.
fn unless_empty(g: Group) -> Option<Group>
    ensures { result ≡ unless_empty g }
{
    if g.is_empty() { None } else { Some(g) }
}

fn tell_at(
    groups: &mut Table<Option<Group>>,
    at: usize,
    bag: &Bag,
    near: &[Pid],
    end: End,
) -> Result<(), NoMemory>
    requires near { length near.now ≤ 65 }
    requires within { at < length groups.old }
    ensures ok { OnOk result (IsChangedAt (held_told_by bag.now near.now end) at groups.old groups.new) }
    ensures err { OnErr result (groups.new ≡ groups.old) }
{
    let id = groups.as_slice()[at].pid;
    let Some(mut g) = groups.replace_at(at, None) else {
        return Ok(());
    };
    let told = tell(bag, near, end, id, &mut g);
    groups.replace_at(at, Some(g));
    told
}

fn untell_at(groups: &mut Table<Option<Group>>, at: usize, bag: &Bag, near: &[Pid], end: End)
    requires near { length near.now ≤ 65 }
    requires within { at < length groups.old }
    ensures { IsChangedAt (held_untold_by bag.now near.now end) at groups.old groups.new }
{
    let id = groups.as_slice()[at].pid;
    if let Some(mut g) = groups.replace_at(at, None) {
        untell(bag, near, end, id, &mut g);
        groups.replace_at(at, Some(g));
    }
}

fn thin_at(groups: &mut Table<Option<Group>>, at: usize, bag: &Bag, near: &[Pid], end: End)
    requires near { length near.now ≤ 65 }
    requires within { at < length groups.old }
    requires counted { (held : TheEntry (Option TheGroup)) → slice_get groups.old at ≡ Some held → IsCountedIn held.value }
    ensures { IsChangedAt (held_thinned_by bag.now near.now end) at groups.old groups.new }
{
    let id = groups.as_slice()[at].pid;
    if let Some(mut g) = groups.replace_at(at, None) {
        thin(bag, near, end, id, &mut g);
        groups.replace_at(at, unless_empty(g));
    }
}

// The first groups have the logs again that they had.
fn untell_first(groups: &mut Table<Option<Group>>, count: usize, bag: &Bag, near: &[Pid], end: End)
    requires near { length near.now ≤ 65 }
    requires within { count ≤ length groups.old }
    ensures { groups.new ≡ partly (held_untold_by bag.now near.now end) count groups.old }
{
    for at in 0..count {
        untell_at(groups, at, bag, near, end);
    }
}

/// The logs of the groups get what the end sends to them.
///
/// # Errors
/// NoMemory where there is no room in a log; the groups are as before.
pub fn tell_groups(
    groups: &mut Table<Option<Group>>,
    bag: &Bag,
    near: &[Pid],
    end: End,
) -> Result<(), NoMemory>
    requires { length near.now ≤ 65 }
    ensures ok { OnOk result (groups.new ≡ with_each (held_told_by bag.now near.now end) groups.old) }
    ensures err { OnErr result (groups.new ≡ groups.old) }
{
    for at in 0..groups.len() {
        if let Err(refused) = tell_at(groups, at, bag, near, end) {
            untell_first(groups, at, bag, near, end);
            return Err(refused);
        }
    }
    Ok(())
}

/// The groups have the counts and the members that the end leaves. It takes no memory.
pub fn thin_groups(groups: &mut Table<Option<Group>>, bag: &Bag, near: &[Pid], end: End)
    requires near { length near.now ≤ 65 }
    requires counted { (id : ThePid) → IsCountedIn (present (value_at groups.old id)) }
    ensures { groups.new ≡ with_each (held_thinned_by bag.now near.now end) groups.old }
{
    for at in 0..groups.as_slice().len() {
        thin_at(groups, at, bag, near, end);
    }
}
