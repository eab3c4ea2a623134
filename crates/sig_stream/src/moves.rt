// A process that changes groups, and one that has taken all.
ghost use Rattle.std.specs.Prelude.{◌≡◌, ◌≢◌, ◌++◌, [], ◌↔◌, ℕ, false, length, IsTrue, take, OnOk, OnErr};
ghost use Rattle.unix_names.specs.declared.Pid.{Pid};
ghost use Rattle.group_record.specs.Members.{has_member};
ghost use Rattle.group_record.specs.Log.{log_part};
ghost use Rattle.group_record.specs.Groups.{joined, left, settled};
ghost use Rattle.sig_stream.specs.Streams.{IsListed, stream, tail, signals_for, regrouped};

use group_record::{Group, LogEntry};
use signal_state::Own;
use unix_names::{NoMemory, Pid, Seq, Signal};
use vproc_record::Vproc;

/// Whether a process is a member of a group under its user id. It takes no memory.
pub fn is_listed(v: &Vproc, g: &Group) -> bool
    ensures { IsTrue result ↔ IsListed v.now g.now }
{
    match g.member_of(v.pid) {
        None => false,
        Some(m) => m.uid == v.uid,
    }
}

/// Moves a process from one group to another. Its stream stays the same list: what the old log has for it goes to the backlog, and its part of the new log begins at that log's end.
///
/// After NoMemory the three records are as before.
pub fn regroup(v: &mut Vproc, from: &mut Group, to: &mut Group) -> Result<(), NoMemory>
    requires listed { IsListed v.old from.old }
    requires absent { has_member to.old.members v.old.pid ≡ false }
    ensures process { OnOk result (v.new ≡ regrouped v.old from.old to.old.id) }
    ensures from { OnOk result (from.new ≡ left from.old v.old.pid) }
    ensures to { OnOk result (to.new ≡ joined to.old v.old.pid v.old.uid) }
    ensures stream { OnOk result (stream v.new to.new ≡ stream v.old from.old) }
    ensures others_from { OnOk result ((q : Pid) (uid : ℕ) → q.0 ≢ v.old.pid.0 → log_part q uid from.new ≡ log_part q uid from.old) }
    ensures others_to { OnOk result ((q : Pid) (uid : ℕ) → q.0 ≢ v.old.pid.0 → log_part q uid to.new ≡ log_part q uid to.old) }
    ensures process_stays { OnErr result (v.new ≡ v.old) }
    ensures from_stays { OnErr result (from.new ≡ from.old) }
    ensures to_stays { OnErr result (to.new ≡ to.old) }
{
    let p = v.pid;
    let uid = v.uid;
    let had = v.backlog.len();
    append_for(&mut v.backlog, from.part_of(p), p, uid)?;
    if let Err(refused) = to.join(p, uid) {
        v.backlog.truncate(had);
        return Err(refused);
    }
    from.leave(p);
    v.group = to.id;
    Ok(())
}

/// Forgets a stream that was taken whole: the backlog is emptied, the process's part of the log begins at the log's end, and nothing counts as taken. It takes no memory.
pub fn settle(own: &mut Own, v: &mut Vproc, g: &mut Group)
    requires listed { IsListed v.old g.old }
    requires tail { tail own.old.taken v.old g.old ≡ [] }
    ensures own { own.new ≡ record own.old { taken = 0 } }
    ensures process { v.new ≡ record v.old { backlog = [] } }
    ensures group { g.new ≡ settled g.old v.old.pid }
    ensures stream { stream v.new g.new ≡ [] }
    ensures others { (q : Pid) (uid : ℕ) → q.0 ≢ v.old.pid.0 → log_part q uid g.new ≡ log_part q uid g.old }
{
    v.backlog.clear();
    g.settle(v.pid);
    own.taken = 0;
}

// On a refusal the backlog is as before.
fn append_for(
    backlog: &mut Seq<Signal>,
    entries: &[LogEntry],
    p: Pid,
    uid: u32,
) -> Result<(), NoMemory>
    ensures ok { OnOk result (backlog.new ≡ backlog.old ++ signals_for p uid entries.now) }
    ensures err { OnErr result (backlog.new ≡ backlog.old) }
{
    let had = backlog.len();
    let grown = push_for(backlog, entries, p, uid);
    if grown.is_err() {
        backlog.truncate(had);
    }
    grown
}

// On a refusal a part of the signals stands at the end.
fn push_for(
    backlog: &mut Seq<Signal>,
    entries: &[LogEntry],
    p: Pid,
    uid: u32,
) -> Result<(), NoMemory>
    ensures ok { OnOk result (backlog.new ≡ backlog.old ++ signals_for p uid entries.now) }
    ensures err { OnErr result (take (length backlog.old) backlog.new ≡ backlog.old) }
{
    for e in entries {
        if e.concerns(p, uid) {
            backlog.push(e.signal)?;
        }
    }
    Ok(())
}
