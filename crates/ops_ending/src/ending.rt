// The end of a process: exit, and a signal that ends it.
ghost use Rattle.std.specs.Prelude.{◌≡◌, ◌==◌, ◌≤◌, ◌∷◌, ◌++◌, [], length, Some, IsSome, IfOk, OnOk, OnErr, if◌then◌else◌};
ghost use Rattle.unix_names.specs.declared.Pid.{Pid as ThePid};
ghost use Rattle.vproc_record.specs.declared.Vproc.{Vproc as TheVproc};
ghost use Rattle.group_record.specs.declared.Group.{Group as TheGroup};
ghost use Rattle.record_bag.specs.Bags.{vproc_in, group_in};
ghost use Rattle.record_bag.specs.Decisions.{answered};
ghost use Rattle.ordered_table.specs.Entries.{with_each};
ghost use Rattle.decide_law.specs.Base.{HasBase};
ghost use Rattle.decide_law.specs.Agrees.{vproc_at, group_at};
ghost use Rattle.decide_law.specs.Effects.{folded, emptied, settled_in, done_by, on_base};
ghost use Rattle.decide_law.specs.Parts.{decide_by};
ghost use Rattle.unix_calls.specs.declared.Call.TheVariants as calls;
ghost use Rattle.ops_ending.specs.Ending.{ended_vproc, end_effect, exit_effect};
ghost use Rattle.decide_law.specs.Vector.{IsFitting};
ghost use Rattle.ops_ending.specs.Laws.{killed_answer};
ghost use Rattle.ops_ending.specs.MethodEnding.{IsCountedIn, IsLeft, end_of, held_group_by, nudges_in, end_answer};

use crate::end_names::end_names;
use crate::left_groups::{tell_groups, thin_groups};
use crate::left_vprocs::{End, end_of, leave_vprocs};
use crate::told::end_nudges;
use decide_law::{finish_with, is_none, settle_keeping, unsettle};
use ordered_table::Table;
use record_bag::{Bag, Outcome};
use signal_state::Own;
use std::alloc::Global;
use std::mem;
use unix_calls::{Call, Entry, Event, Phase, Reply};
use unix_names::{NoMemory, Pid, Seq, Signal, WaitStatus};
use vproc_record::Vproc;

// An end, with the process and its children.
#[derive(Debug, Drop)]
struct Around {
    end: End,
    near: Seq<Pid>,
}

// The process, and then its children.
fn near_of(alloc: Global, v: &Vproc) -> Result<Seq<Pid>, NoMemory>
    ensures near { IfOk result (λ near. near ≡ v.now.pid ∷ v.now.children) }
    ensures few { IfOk result (λ near. length near ≤ 65) }
{
    let mut near = Seq::new(alloc);
    near.push(v.pid)?;
    near.extend_from_slice(v.children.as_slice())?;
    Ok(near)
}

// The groups become what the end leaves of them. They stand outside the bag while they change, since what becomes of them is told from the records of processes. After NoMemory the bag is as before.
fn leave_groups(alloc: Global, bag: &mut Bag, near: &[Pid], end: End) -> Result<(), NoMemory>
    requires near { length near.now ≤ 65 }
    requires counted { (id : ThePid) → IsCountedIn (group_in bag.old id) }
    ensures vprocs { bag.new.vprocs ≡ bag.old.vprocs }
    ensures ok { OnOk result (bag.new.groups ≡ with_each (held_group_by bag.old near.now end) bag.old.groups) }
    ensures err { OnErr result (bag.new ≡ bag.old) }
{
    let mut groups = mem::replace(&mut bag.groups, Table::new(alloc));
    match tell_groups(&mut groups, bag, near, end) {
        Ok(()) => {
            thin_groups(&mut groups, bag, near, end);
            bag.groups = groups;
            Ok(())
        }
        Err(refused) => {
            bag.groups = groups;
            Err(refused)
        }
    }
}

// The bag becomes what the end leaves of it. Answers whom the end nudges. After NoMemory the bag is as before.
fn leave(alloc: Global, bag: &mut Bag, near: &[Pid], end: End) -> Result<Seq<Pid>, NoMemory>
    requires near { length near.now ≤ 65 }
    requires counted { (id : ThePid) → IsCountedIn (group_in bag.old id) }
    ensures nudges { IfOk result (λ nudges. nudges ≡ (if end.parent.0 == 1 then [] else end.parent ∷ []) ++ nudges_in bag.old near.now end bag.old.groups) }
    ensures vprocs { OnOk result (bag.new.vprocs ≡ with_each (ended_vproc end.pid end.vanishes end.status) bag.old.vprocs) }
    ensures groups { OnOk result (bag.new.groups ≡ with_each (held_group_by bag.old near.now end) bag.old.groups) }
    ensures err { OnErr result (bag.new ≡ bag.old) }
{
    let nudges = end_nudges(alloc, bag, near, end)?;
    leave_groups(alloc, bag, near, end)?;
    leave_vprocs(end, &mut bag.vprocs);
    Ok(nudges)
}

fn around_of(alloc: Global, bag: &Bag, pid: Pid, status: WaitStatus) -> Result<Around, NoMemory>
    requires { IsSome (vproc_in bag.now pid) }
    ensures end { (v : TheVproc) → vproc_in bag.now pid ≡ Some v → IfOk result (λ around. around.end ≡ end_of bag.now v status) }
    ensures near { (v : TheVproc) → vproc_in bag.now pid ≡ Some v → IfOk result (λ around. around.near ≡ v.pid ∷ v.children) }
    ensures few { IfOk result (λ around. length around.near ≤ 65) }
{
    match bag.vproc(pid) {
        Some(v) => Ok(Around {
            end: end_of(bag, v, status),
            near: near_of(alloc, v)?,
        }),
        None => unreachable!(),
    }
}

// The same of the process's end with this status.
fn leave_at(
    alloc: Global,
    bag: &mut Bag,
    pid: Pid,
    status: WaitStatus,
) -> Result<Seq<Pid>, NoMemory>
    requires there { IsSome (vproc_in bag.old pid) }
    requires counted { (id : ThePid) → IsCountedIn (group_in bag.old id) }
    ensures ok { (v : TheVproc) → vproc_in bag.old pid ≡ Some v → IfOk result (λ nudges. IsLeft bag.old v status bag.new nudges) }
    ensures err { OnErr result (bag.new ≡ bag.old) }
{
    let around = around_of(alloc, bag, pid, status)?;
    leave(alloc, bag, around.near.as_slice(), around.end)
}

// The end of a process with this status, of which the history has this entry, on a bag that holds all that it needs.
fn end_on(
    alloc: Global,
    pid: Pid,
    entry: Entry,
    status: WaitStatus,
    own: &Own,
    bag: &mut Bag,
) -> Result<Outcome, NoMemory>
    requires base { HasBase own.now pid bag.old }
    requires fits { IsFitting pid own.now bag.old }
    ensures ok { (v : TheVproc) (g : TheGroup) → vproc_at bag.old pid ≡ Some (Some v) → group_at bag.old v.group ≡ Some (Some g) → IfOk result (λ outcome. answered outcome bag.new ≡ done_by pid v bag.old (end_effect (settled_in pid v.group bag.old) (folded own.now v g).sig (emptied v) entry status)) }
    ensures err { OnErr result (bag.new ≡ bag.old) }
{
    let mut carried = *own;
    let kept = settle_keeping(alloc, &mut carried, pid, bag);
    let group = kept.group;
    match leave_at(alloc, bag, pid, status) {
        Ok(nudges) => Ok(finish_with(nudges, carried, group, bag, Some(entry), Phase::Gone)),
        Err(refused) => {
            unsettle(pid, kept, bag);
            Err(refused)
        }
    }
}

// The same where something may lack.
fn decide_end(
    alloc: Global,
    pid: Pid,
    entry: Entry,
    status: WaitStatus,
    own: &Own,
    bag: &mut Bag,
) -> Result<Outcome, NoMemory>
    requires base { HasBase own.now pid bag.old }
    requires fits { IsFitting pid own.now bag.old }
    ensures answer { IfOk result (λ outcome. answered outcome bag.new ≡ on_base (end_answer entry status own.now bag.old pid) pid bag.old) }
    ensures err { OnErr result (bag.new ≡ bag.old) }
{
    let names = end_names(alloc, bag, pid)?;
    if !is_none(&names) {
        return Ok(Outcome::Need(names));
    }
    end_on(alloc, pid, entry, status, own, bag)
}

/// Decides exit: asks for the records of the parent and of the children with their groups; or ends the process, whose status is the last eight bits of the number.
///
/// # Errors
/// NoMemory where there is no room for the names that are asked for, or for what the end leaves; the bag is as before.
pub fn decide_exit(
    alloc: Global,
    pid: Pid,
    code: u32,
    own: &Own,
    bag: &mut Bag,
) -> Result<Outcome, NoMemory>
    requires base { HasBase own.now pid bag.old }
    requires fits { IsFitting pid own.now bag.old }
    ensures answer { IfOk result (λ outcome. answered outcome bag.new ≡ decide_by (calls.Exit code) (λ b sig p v. exit_effect b sig p v code) pid own.now bag.old) }
    ensures err { OnErr result (bag.new ≡ bag.old) }
{
    let entry = Entry::Called {
        caller: pid,
        call: Call::Exit(code),
        reply: Reply::NoReply,
    };
    decide_end(
        alloc,
        pid,
        entry,
        WaitStatus::Exited((code % 256) as u8),
        own,
        bag,
    )
}

/// Decides the end of a process by a signal: asks for the records of the parent and of the children with their groups, or ends the process. The signal stays among those that are pending.
///
/// # Errors
/// NoMemory where there is no room for the names that are asked for, or for what the end leaves; the bag is as before.
pub fn decide_killed(
    alloc: Global,
    pid: Pid,
    signal: Signal,
    own: &Own,
    bag: &mut Bag,
) -> Result<Outcome, NoMemory>
    requires base { HasBase own.now pid bag.old }
    requires fits { IsFitting pid own.now bag.old }
    ensures answer { IfOk result (λ outcome. answered outcome bag.new ≡ on_base (killed_answer signal own.now bag.old pid) pid bag.old) }
    ensures err { OnErr result (bag.new ≡ bag.old) }
{
    let entry = Entry::Happened {
        pid,
        event: Event::EndedBy(signal),
    };
    decide_end(alloc, pid, entry, WaitStatus::Killed(signal), own, bag)
}
