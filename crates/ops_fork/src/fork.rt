// fork (POSIX.1-2017, XSH fork).
ghost use Rattle.std.specs.Prelude.{◌≡◌, ◌≤◌, ◌<◌, false, length, None, Some, IsSome, All, IfOk, OnOk, OnErr};
ghost use Rattle.vproc_record.specs.declared.Vproc.{Vproc as TheVproc};
ghost use Rattle.group_record.specs.declared.Group.{Group as TheGroup};
ghost use Rattle.group_record.specs.Members.{has_member};
ghost use Rattle.ordered_table.specs.Entries.{IsRising};
ghost use Rattle.record_bag.specs.Bags.{vproc_in};
ghost use Rattle.record_bag.specs.Decisions.{answered};
ghost use Rattle.decide_law.specs.Agrees.{vproc_at, group_at};
ghost use Rattle.decide_law.specs.Base.{HasBase};
ghost use Rattle.decide_law.specs.Effects.{folded, emptied, done_by, left_by};
ghost use Rattle.decide_law.specs.Places.{named_or};
ghost use Rattle.ops_fork.specs.Fork.{is_full, born_record, fork_effect, decide_fork};

use crate::child::{add_newborn, born_record};
use decide_law::done_quiet;
use record_bag::{Bag, Decided, Outcome, Site};
use signal_state::Own;
use std::alloc::Global;
use unix_calls::{Call, Entry, Phase, Reply};
use unix_names::{Errno, MOST_CHILDREN, NoMemory, NodeId, Pid, Seq};
use vproc_record::Vproc;

// The names of a bag rise.
fn both_rise(bag: &Bag)
    ensures vprocs { IsRising bag.now.vprocs }
    ensures groups { IsRising bag.now.groups }
{
    let _vprocs = bag.vprocs.as_slice();
    let _groups = bag.groups.as_slice();
}

// The records of the parent and of its group, once it has forked. Answers the child's record.
fn fork_in(
    alloc: Global,
    own: &mut Own,
    pid: Pid,
    bag: &mut Bag,
    site: Site,
) -> Result<Vproc, NoMemory>
    requires base { HasBase own.old pid bag.old }
    requires room { (v : TheVproc) → vproc_at bag.old pid ≡ Some (Some v) → length v.children < 64 }
    requires fresh { (v : TheVproc) (g : TheGroup) → vproc_at bag.old pid ≡ Some (Some v) → group_at bag.old v.group ≡ Some (Some g) → has_member g.members site.fresh ≡ false }
    ensures own { (v : TheVproc) (g : TheGroup) → vproc_at bag.old pid ≡ Some (Some v) → group_at bag.old v.group ≡ Some (Some g) → OnOk result (own.new ≡ folded own.old v g) }
    ensures bag { (v : TheVproc) (g : TheGroup) → vproc_at bag.old pid ≡ Some (Some v) → group_at bag.old v.group ≡ Some (Some g) → OnOk result (bag.new ≡ left_by (fork_effect own.old.sig pid site (emptied v)) pid v.group bag.old) }
    ensures born { (v : TheVproc) → vproc_at bag.old pid ≡ Some (Some v) → IfOk result (λ born. born ≡ born_record v site) }
    ensures err { OnErr result (bag.new ≡ bag.old) }
{
    both_rise(bag);
    let Some(mut v) = bag.vprocs.replace(pid, None) else {
        unreachable!();
    };
    let id = v.group;
    let Some(mut g) = bag.groups.replace(id, None) else {
        unreachable!();
    };
    let born = born_record(alloc, &v, site);
    let added = add_newborn(own, &mut v, &mut g, site.fresh);
    bag.groups.replace(id, Some(g));
    bag.vprocs.replace(pid, Some(v));
    added?;
    Ok(born)
}

// The fork is done here.
fn fork_here(
    alloc: Global,
    pid: Pid,
    own: &Own,
    bag: &mut Bag,
    site: Site,
) -> Result<Outcome, NoMemory>
    requires base { HasBase own.now pid bag.old }
    requires room { (v : TheVproc) → vproc_at bag.old pid ≡ Some (Some v) → length v.children < 64 }
    requires fresh { (v : TheVproc) (g : TheGroup) → vproc_at bag.old pid ≡ Some (Some v) → group_at bag.old v.group ≡ Some (Some g) → has_member g.members site.fresh ≡ false }
    ensures answer { (v : TheVproc) (g : TheGroup) → vproc_at bag.old pid ≡ Some (Some v) → group_at bag.old v.group ≡ Some (Some g) → IfOk result (λ outcome. answered outcome bag.new ≡ done_by pid v bag.old (fork_effect (folded own.now v g).sig pid site (emptied v))) }
    ensures err { OnErr result (bag.new ≡ bag.old) }
{
    let mut own = *own;
    let born = fork_in(alloc, &mut own, pid, bag, site)?;
    let entry = Entry::Called {
        caller: pid,
        call: Call::Fork,
        reply: Reply::Number(site.fresh.0),
    };
    Ok(Outcome::Done(Decided {
        entry: Some(entry),
        own,
        phase: Phase::Ready,
        born: Some(born),
        nudges: Seq::new(alloc),
    }))
}

// Whether a process whose record is held has as many children as it may have.
fn is_full(pid: Pid, bag: &Bag) -> bool
    requires { IsSome (vproc_in bag.now pid) }
    ensures { (v : TheVproc) → vproc_in bag.now pid ≡ Some v → result ≡ is_full v }
{
    match bag.vproc(pid) {
        Some(v) => v.children.len() >= MOST_CHILDREN,
        None => unreachable!(),
    }
}

// Where a process is whose record is held.
fn place_of(pid: Pid, bag: &Bag) -> NodeId
    requires { IsSome (vproc_in bag.now pid) }
    ensures { (v : TheVproc) → vproc_in bag.now pid ≡ Some v → result ≡ v.loc }
{
    match bag.vproc(pid) {
        Some(v) => v.loc,
        None => unreachable!(),
    }
}

fn named_or(named: Option<NodeId>, place: NodeId) -> NodeId
    ensures { result ≡ named_or named place }
{
    match named {
        None => place,
        Some(node) => node,
    }
}

/// Decides fork: EAGAIN where the caller has 64 children; else the child comes at the node that is named, or else where the caller is, and asked elsewhere the answer is the way there.
///
/// # Errors
/// NoMemory where there is no room for the child among the caller's children or the members of its group; the bag is as before.
pub fn decide_fork(
    alloc: Global,
    pid: Pid,
    at: Option<NodeId>,
    own: &Own,
    bag: &mut Bag,
    site: Site,
) -> Result<Outcome, NoMemory>
    requires base { HasBase own.now pid bag.old }

    // The fresh pid is no member of the caller's group: it is nobody's yet.
    requires fresh { (v : TheVproc) (g : TheGroup) → vproc_at bag.old pid ≡ Some (Some v) → group_at bag.old v.group ≡ Some (Some g) → has_member g.members site.fresh ≡ false }
    ensures answer { IfOk result (λ outcome. answered outcome bag.new ≡ decide_fork at site pid own.now bag.old) }
    ensures err { OnErr result (bag.new ≡ bag.old) }
{
    if is_full(pid, bag) {
        let entry = Entry::Called {
            caller: pid,
            call: Call::Fork,
            reply: Reply::Refused(Errno::EAGAIN),
        };
        return Ok(done_quiet(alloc, *own, pid, bag, Some(entry), Phase::Ready));
    }
    let node = named_or(at, place_of(pid, bag));
    if node.0 != site.node.0 {
        return Ok(Outcome::Away(node));
    }
    fork_here(alloc, pid, own, bag, site)
}
