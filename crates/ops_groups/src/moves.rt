// Setsid and setpgid.
ghost use Rattle.std.specs.Prelude.{◌≡◌, ◌++◌, [], None, Some, IsSome, IfOk, OnOk, OnErr};
ghost use Rattle.std.specs.Option.{option_copied};
ghost use Rattle.unix_names.specs.declared.Pid.{Pid as ThePid};
ghost use Rattle.unix_calls.specs.Calls.{IsName, HasNames};
ghost use Rattle.unix_calls.specs.declared.Call.{Call as TheCall};
ghost use Rattle.unix_calls.specs.declared.Call.TheVariants as calls;
ghost use Rattle.vproc_record.specs.declared.Vproc.{Vproc as TheVproc};
ghost use Rattle.group_record.specs.declared.Group.{Group as TheGroup};
ghost use Rattle.record_bag.specs.Bags.{vproc_in, group_in};
ghost use Rattle.record_bag.specs.Decisions.{answered};
ghost use Rattle.record_bag.specs.declared.vector.Outcome.TheVariants.{Done};
ghost use Rattle.decide_law.specs.Agrees.{group_at};
ghost use Rattle.decide_law.specs.Base.{HasBase};
ghost use Rattle.decide_law.specs.Effects.{replied, trimmed_in};
ghost use Rattle.decide_law.specs.Footprints.{call_footprint};
ghost use Rattle.decide_law.specs.MethodNeeds.{wanted};
ghost use Rattle.decide_law.specs.Nudges.{but_system};
ghost use Rattle.decide_law.specs.Parts.{decide_by};
ghost use Rattle.decide_law.specs.Told.{target_in};
ghost use Rattle.ops_groups.specs.Decide.{effect_of};
ghost use Rattle.ops_groups.specs.Setpgid.{setpgid_effect};
ghost use Rattle.ops_groups.specs.Setsid.{setsid_effect};
ghost use Rattle.ops_groups.specs.MethodMove.{IsMoveCall, IsCountedIn, IsWithin, named_group, decided_as, group_settled, ChangesAs};

use crate::bag_after::move_in;
use crate::mover::{Place, mover_of};
use crate::names::{setpgid_names, setsid_names};
use crate::refused::{has_child, setpgid_refusal, target_pid, wanted_group};
use crate::settling::{Caller, give_back, settle_group, take_backlog};
use decide_law::{finish_with, folded, is_none};
use record_bag::{Bag, Outcome};
use signal_state::Own;
use std::alloc::Global;
use unix_calls::{Call, Entry, Phase, Reply};
use unix_names::{Errno, Name, NoMemory, Pid, SYSTEM, Seq};
use vproc_record::Vproc;

/// What a call answers, and whom it nudges.
#[derive(Debug, Drop)]
pub struct Change {
    pub reply: Reply,
    pub nudges: Seq<Pid>,
}

// A reply that changes nothing, once the caller has taken its part of its group's log. It takes no memory.
fn unchanged(alloc: Global, by: Caller, reply: Reply, bag: &mut Bag) -> Change
    ensures { (call : TheCall) → ChangesAs (group_settled by.pid by.group bag.old) bag.new by.pid call (replied by.pid call reply) result }
{
    settle_group(by, bag);
    Change {
        reply,
        nudges: Seq::new(alloc),
    }
}

// A process, unless it is the caller or the system process.
fn nudge(nudges: &mut Seq<Pid>, caller: Pid, pid: Pid) -> Result<(), NoMemory>
    ensures { OnOk result (nudges.new ≡ nudges.old ++ but_system caller pid) }
{
    if pid != caller && pid != SYSTEM {
        nudges.push(pid)?;
    }
    Ok(())
}

fn move_nudges(alloc: Global, caller: Pid, u: &Vproc) -> Result<Seq<Pid>, NoMemory>
    ensures { IfOk result (λ nudges. nudges ≡ but_system caller u.now.pid ++ but_system caller u.now.parent) }
{
    let mut nudges = Seq::new(alloc);
    nudge(&mut nudges, caller, u.pid)?;
    nudge(&mut nudges, caller, u.parent)?;
    Ok(nudges)
}

// Setsid, on a bag in which the caller has taken its backlog.
fn setsid_change(alloc: Global, by: Caller, bag: &mut Bag) -> Result<Change, NoMemory>
    requires there { IsSome (vproc_in bag.old by.pid) }
    requires counted { (id : ThePid) → IsCountedIn (group_in bag.old id) }
    ensures ok { (v : TheVproc) → vproc_in bag.old by.pid ≡ Some v → IfOk result (ChangesAs (group_settled by.pid by.group bag.old) bag.new by.pid calls.Setsid (λ sig. setsid_effect (group_settled by.pid by.group bag.old) sig by.pid v)) }
    ensures err { OnErr result (bag.new ≡ bag.old) }
{
    let pid = by.pid;
    let Some(v) = bag.vproc(pid) else {
        unreachable!();
    };
    if bag.group(v.pid).is_some() {
        return Ok(unchanged(alloc, by, Reply::Refused(Errno::EPERM), bag));
    }
    let reply = Reply::Number(pid.0);
    if bag.group(v.group).is_none() {
        return Ok(unchanged(alloc, by, reply, bag));
    }
    let to = Place {
        group: v.pid,
        session: v.pid,
    };
    let nudges = move_nudges(alloc, pid, v)?;
    let mover = mover_of(alloc, v)?;
    move_in(alloc, by, &mover, to, bag)?;
    Ok(Change { reply, nudges })
}

// The record of the target: the caller's own, or that of a child; of another process none is looked at.
fn target_in<'a>(bag: &'a Bag, v: &'a Vproc, t: Pid) -> Option<&'a Vproc>
    ensures { option_copied result ≡ target_in bag.now v.now t }
{
    if t == v.pid {
        Some(v)
    } else if has_child(v, t) {
        bag.vproc(t)
    } else {
        None
    }
}

// The group that setpgid names; a negative number, which is refused, names none.
fn named_group(v: &Vproc, target: u32, group: i64) -> Pid
    requires { IsName group }
    ensures { result ≡ named_group v.now target group }
{
    if group < 0 {
        v.pid
    } else {
        wanted_group(v, target, group as u32)
    }
}

// Setpgid, on a bag in which the caller has taken its backlog.
fn setpgid_change(
    alloc: Global,
    by: Caller,
    target: u32,
    group: i64,
    bag: &mut Bag,
) -> Result<Change, NoMemory>
    requires there { IsSome (vproc_in bag.old by.pid) }
    requires counted { (id : ThePid) → IsCountedIn (group_in bag.old id) }
    requires name { IsName group }
    ensures ok { (v : TheVproc) → vproc_in bag.old by.pid ≡ Some v → IfOk result (ChangesAs (group_settled by.pid by.group bag.old) bag.new by.pid (calls.Setpgid target group) (λ sig. setpgid_effect (group_settled by.pid by.group bag.old) sig by.pid v target group)) }
    ensures err { OnErr result (bag.new ≡ bag.old) }
{
    let pid = by.pid;
    let Some(v) = bag.vproc(pid) else {
        unreachable!();
    };
    if let Some(refusal) = setpgid_refusal(bag, v, target, group) {
        return Ok(unchanged(alloc, by, Reply::Refused(refusal), bag));
    }
    let new = named_group(v, target, group);
    let Some(u) = target_in(bag, v, target_pid(v, target)) else {
        return Ok(unchanged(alloc, by, Reply::Fine, bag));
    };
    if bag.group(u.group).is_none() {
        return Ok(unchanged(alloc, by, Reply::Fine, bag));
    }
    if u.group == new {
        return Ok(unchanged(alloc, by, Reply::Fine, bag));
    }
    let to = Place {
        group: new,
        session: u.session,
    };
    let nudges = move_nudges(alloc, pid, u)?;
    let mover = mover_of(alloc, u)?;
    move_in(alloc, by, &mover, to, bag)?;
    Ok(Change {
        reply: Reply::Fine,
        nudges,
    })
}

fn change_by(alloc: Global, by: Caller, call: &Call, bag: &mut Bag) -> Result<Change, NoMemory>
    requires moves { IsMoveCall call.now }
    requires names { HasNames call.now }
    requires there { IsSome (vproc_in bag.old by.pid) }
    requires counted { (id : ThePid) → IsCountedIn (group_in bag.old id) }
    ensures ok { (v : TheVproc) → vproc_in bag.old by.pid ≡ Some v → IfOk result (ChangesAs (group_settled by.pid by.group bag.old) bag.new by.pid call.now (λ sig. effect_of call.now (group_settled by.pid by.group bag.old) sig by.pid v)) }
    ensures err { OnErr result (bag.new ≡ bag.old) }
{
    match *call {
        Call::Setsid => setsid_change(alloc, by, bag),
        Call::Setpgid { pid: target, pgid } => setpgid_change(alloc, by, target, pgid, bag),
        _ => unreachable!(),
    }
}

fn names_for(alloc: Global, bag: &Bag, v: &Vproc, call: &Call) -> Result<Seq<Name>, NoMemory>
    requires moves { IsMoveCall call.now }
    requires names { HasNames call.now }
    ensures { IfOk result (λ names. names ≡ wanted bag.now (call_footprint bag.now v.now call.now) []) }
{
    match *call {
        Call::Setsid => setsid_names(alloc, bag, v),
        Call::Setpgid { pid, pgid } => setpgid_names(alloc, bag, v, pid, pgid),
        _ => unreachable!(),
    }
}

// The answer of a call of the caller, which carries these signals and had this group, with this change. It takes no memory.
fn finish(own: Own, by: Caller, call: Call, change: Change, bag: &mut Bag) -> Outcome
    requires held { IsSome (group_at bag.old by.group) }
    requires within { (g : TheGroup) → group_at bag.old by.group ≡ Some (Some g) → IsWithin g }
    ensures outcome { result ≡ Done (decided_as by.pid call own change.reply change.nudges) }
    ensures bag { bag.new ≡ trimmed_in by.group bag.old }
{
    let Change { reply, nudges } = change;
    let entry = Entry::Called {
        caller: by.pid,
        call,
        reply,
    };
    finish_with(nudges, own, by.group, bag, Some(entry), Phase::Ready)
}

/// Decides setsid and setpgid: asks for the records that lack, refuses, or takes the process from its group to another, which may be a new one. The records are changed in place; what may find no memory comes first, and is undone where it does.
///
/// # Errors
/// NoMemory where there is no room for the names that are asked for, or for what the records gain; the bag is as before.
pub fn decide_move(
    alloc: Global,
    pid: Pid,
    call: &Call,
    own: &Own,
    bag: &mut Bag,
) -> Result<Outcome, NoMemory>
    requires base { HasBase own.now pid bag.old }
    requires counted { (id : ThePid) → IsCountedIn (group_in bag.old id) }
    requires moves { IsMoveCall call.now }
    requires names { HasNames call.now }
    ensures answer { IfOk result (λ outcome. answered outcome bag.new ≡ decide_by call.now (effect_of call.now) pid own.now bag.old) }
    ensures err { OnErr result (bag.new ≡ bag.old) }
{
    let Some(v) = bag.vproc(pid) else {
        unreachable!();
    };
    let names = names_for(alloc, bag, v, call)?;
    if !is_none(&names) {
        return Ok(Outcome::Need(names));
    }
    let by = Caller {
        pid,
        group: v.group,
    };
    let Some(carried) = folded(pid, own, bag) else {
        unreachable!();
    };
    let backlog = take_backlog(alloc, pid, bag);
    match change_by(alloc, by, call, bag) {
        Ok(change) => Ok(finish(carried, by, *call, change, bag)),
        Err(refused) => {
            give_back(pid, backlog, bag);
            Err(refused)
        }
    }
}
