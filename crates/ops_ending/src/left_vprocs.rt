// The records of processes that an end leaves.
ghost use Rattle.std.specs.Prelude.{◌≡◌, ◌==◌, ◌<◌, length};
ghost use Rattle.record_bag.specs.Bags.{vproc_in};
ghost use Rattle.ordered_table.specs.Entries.{with_each};
ghost use Rattle.decide_law.specs.Counts.{passes};
ghost use Rattle.ops_ending.specs.Ending.{vanishes, goes, left_vproc, ended_vproc};
ghost use Rattle.ops_ending.specs.MethodEnding.{own_left, adopted, end_of, IsChangedAt};

use ordered_table::Table;
use record_bag::Bag;
use unix_names::{Life, Pid, WaitStatus, is_living};
use vproc_record::Vproc;

/// The end of a process: who ends, who its parent is, whether nobody waits for it, and with which status it ends.
#[derive(Clone, Copy, Debug, PartialEq, Eq)]
pub struct End {
    pub pid: Pid,
    pub parent: Pid,
    pub vanishes: bool,
    pub status: WaitStatus,
}

// Whether nobody waits for a process: its parent is the system process, or ignores the signal of a child's end.
fn vanishes(bag: &Bag, v: &Vproc) -> bool
    ensures { result ≡ vanishes bag.now v.now }
{
    if v.parent.0 == 1 {
        return true;
    }
    match bag.vproc(v.parent) {
        None => false,
        Some(parent) => parent.ignchld,
    }
}

/// The end of the process with this record.
pub fn end_of(bag: &Bag, v: &Vproc, status: WaitStatus) -> End
    ensures { result ≡ end_of bag.now v.now status }
{
    End {
        pid: v.pid,
        parent: v.parent,
        vanishes: vanishes(bag, v),
        status,
    }
}

/// Whether the record is that of the process itself.
pub fn is_itself(end: End, v: &Vproc) -> bool
    ensures { result ≡ (v.now.pid.0 == end.pid.0) }
{
    v.pid == end.pid
}

/// Whether the record is that of a child.
pub fn is_child(end: End, v: &Vproc) -> bool
    ensures { result ≡ (v.now.parent.0 == end.pid.0) }
{
    v.parent == end.pid
}

/// Whether a record goes with this end.
pub fn goes(end: End, v: &Vproc) -> bool
    ensures { result ≡ goes end.pid end.vanishes v.now }
{
    (is_itself(end, v) && end.vanishes) || (is_child(end, v) && !is_living(v.life))
}

/// Whether the record of a process goes with this end. None goes that is not held.
pub fn goes_at(bag: &Bag, end: End, pid: Pid) -> bool
    ensures { result ≡ passes (goes end.pid end.vanishes) (vproc_in bag.now pid) }
{
    match bag.vproc(pid) {
        None => false,
        Some(v) => goes(end, v),
    }
}

// The process itself ends and has no children; another has a child less where nobody waits.
#[tactic(auto, using(crate::proofs::EndParts::itself_left, crate::proofs::EndParts::waited_not, crate::proofs::EndParts::waited_for))]
fn end_or_forget(end: End, v: &mut Vproc)
    ensures { v.new ≡ own_left end.pid end.vanishes end.status v.old }
{
    if is_itself(end, v) {
        v.life = Life::Ended(end.status);
        v.change = None;
        v.children.truncate(0);
    } else if end.vanishes {
        v.drop_child(end.pid);
    }
}

// A child goes to the system process.
fn adopt(end: End, v: &mut Vproc)
    ensures { v.new ≡ adopted end.pid v.old }
{
    if is_child(end, v) {
        v.parent = Pid(1);
    }
}

fn leave(end: End, v: &mut Vproc)
    ensures { v.new ≡ left_vproc end.pid end.vanishes end.status v.old }
{
    end_or_forget(end, v);
    adopt(end, v);
}

fn left_of(end: End, held: Option<Vproc>) -> Option<Vproc>
    ensures { result ≡ ended_vproc end.pid end.vanishes end.status end.pid held }
{
    match held {
        None => None,
        Some(mut v) => {
            if goes(end, &v) {
                return None;
            }
            leave(end, &mut v);
            Some(v)
        }
    }
}

fn leave_at(end: End, vprocs: &mut Table<Option<Vproc>>, at: usize)
    requires { at < length vprocs.old }
    ensures { IsChangedAt (ended_vproc end.pid end.vanishes end.status) at vprocs.old vprocs.new }
{
    let held = vprocs.replace_at(at, None);
    vprocs.replace_at(at, left_of(end, held));
}

/// Each record of a process becomes what the end leaves of it. It takes no memory.
pub fn leave_vprocs(end: End, vprocs: &mut Table<Option<Vproc>>)
    ensures { vprocs.new ≡ with_each (ended_vproc end.pid end.vanishes end.status) vprocs.old }
{
    for at in 0..vprocs.len() {
        leave_at(end, vprocs, at);
    }
}
