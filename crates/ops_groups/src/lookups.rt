// Calls that only look something up.
ghost use Rattle.std.specs.Prelude.{◌≡◌, [], Some, IsSome, IfOk, OnErr};
ghost use Rattle.unix_calls.specs.declared.Call.TheVariants as calls;
ghost use Rattle.vproc_record.specs.declared.Vproc.{Vproc as TheVproc};
ghost use Rattle.record_bag.specs.Bags.{vproc_in};
ghost use Rattle.record_bag.specs.Decisions.{answered};
ghost use Rattle.decide_law.specs.Base.{HasBase};
ghost use Rattle.decide_law.specs.Footprints.{look_footprint};
ghost use Rattle.decide_law.specs.MethodNeeds.{wanted};
ghost use Rattle.decide_law.specs.Parts.{decide_by};
ghost use Rattle.ops_groups.specs.Lookups.{column_of, column_call, column_reply, look_reply, look_effect};
ghost use Rattle.ops_groups.specs.Decide.{effect_of};

use decide_law::{done_quiet, is_none, want};
use record_bag::{Bag, Outcome};
use signal_state::Own;
use std::alloc::Global;
use unix_calls::{Call, Entry, Phase, Reply};
use unix_names::{Errno, Name, NoMemory, Pid, Seq};
use vproc_record::Vproc;

// What getpgid and getsid tell of a process.
#[derive(Clone, Copy)]
enum Column {
    Group,
    Session,
}

impl Column {
    // What stands there of this process.
    fn of(self, v: &Vproc) -> Pid
        ensures { result ≡ column_of self v.now }
    {
        match self {
            Column::Group => v.group,
            Column::Session => v.session,
        }
    }

    // The call that tells it.
    fn call(self, target: u32) -> Call
        ensures { result ≡ column_call self target }
    {
        match self {
            Column::Group => Call::Getpgid(target),
            Column::Session => Call::Getsid(target),
        }
    }
}

/// Decides getpid. It takes no memory.
pub fn decide_getpid(alloc: Global, pid: Pid, own: &Own, bag: &mut Bag) -> Outcome
    requires { HasBase own.now pid bag.old }
    ensures { answered result bag.new ≡ decide_by calls.Getpid (effect_of calls.Getpid) pid own.now bag.old }
{
    let entry = Entry::Called {
        caller: pid,
        call: Call::Getpid,
        reply: Reply::Number(pid.0),
    };
    done_quiet(alloc, *own, pid, bag, Some(entry), Phase::Ready)
}

// The parent of a process whose record is held.
fn parent_of(pid: Pid, bag: &Bag) -> Pid
    requires { IsSome (vproc_in bag.now pid) }
    ensures { (v : TheVproc) → vproc_in bag.now pid ≡ Some v → result ≡ v.parent }
{
    match bag.vproc(pid) {
        Some(v) => v.parent,
        None => unreachable!(),
    }
}

/// Decides getppid. It takes no memory.
pub fn decide_getppid(alloc: Global, pid: Pid, own: &Own, bag: &mut Bag) -> Outcome
    requires { HasBase own.now pid bag.old }
    ensures { answered result bag.new ≡ decide_by calls.Getppid (effect_of calls.Getppid) pid own.now bag.old }
{
    let parent = parent_of(pid, bag);
    let entry = Entry::Called {
        caller: pid,
        call: Call::Getppid,
        reply: Reply::Number(parent.0),
    };
    done_quiet(alloc, *own, pid, bag, Some(entry), Phase::Ready)
}

// The record that a look-up asks for, if it is not held: that of another process than the caller and the system process.
fn look_names(alloc: Global, bag: &Bag, target: u32) -> Result<Seq<Name>, NoMemory>
    ensures { IfOk result (λ names. names ≡ wanted bag.now (look_footprint target) []) }
{
    let mut names = Seq::new(alloc);
    if target > 1 {
        want(&mut names, bag, Name::V(Pid(target)))?;
    }
    Ok(names)
}

fn column_reply(column: Column, bag: &Bag, pid: Pid) -> Reply
    ensures { result ≡ column_reply column (vproc_in bag.now pid) }
{
    match bag.vproc(pid) {
        None => Reply::Refused(Errno::ESRCH),
        Some(v) => Reply::Number(column.of(v).0),
    }
}

fn look_reply(column: Column, bag: &Bag, caller: Pid, target: u32) -> Reply
    ensures { (v : TheVproc) → vproc_in bag.now caller ≡ Some v → result ≡ look_reply column bag.now v target }
{
    if target == 0 {
        column_reply(column, bag, caller)
    } else if target == 1 {
        Reply::Refused(Errno::EPERM)
    } else {
        column_reply(column, bag, Pid(target))
    }
}

// Decides a look-up: asks for the record of another process, or answers what stands there.
fn decide_look(
    alloc: Global,
    pid: Pid,
    column: Column,
    target: u32,
    own: &Own,
    bag: &mut Bag,
) -> Result<Outcome, NoMemory>
    requires { HasBase own.now pid bag.old }
    ensures answer { IfOk result (λ outcome. answered outcome bag.new ≡ decide_by (column_call column target) (look_effect column target) pid own.now bag.old) }
    ensures err { OnErr result (bag.new ≡ bag.old) }
{
    let names = look_names(alloc, bag, target)?;
    if !is_none(&names) {
        return Ok(Outcome::Need(names));
    }
    let reply = look_reply(column, bag, pid, target);
    let call = column.call(target);
    let entry = Entry::Called {
        caller: pid,
        call,
        reply,
    };
    Ok(done_quiet(alloc, *own, pid, bag, Some(entry), Phase::Ready))
}

/// Decides getpgid: asks for the record of another process, or answers the group.
///
/// # Errors
/// NoMemory where there is no room for the name that is asked for; the bag is as before.
pub fn decide_getpgid(
    alloc: Global,
    pid: Pid,
    target: u32,
    own: &Own,
    bag: &mut Bag,
) -> Result<Outcome, NoMemory>
    requires { HasBase own.now pid bag.old }
    ensures answer { IfOk result (λ outcome. answered outcome bag.new ≡ decide_by (calls.Getpgid target) (effect_of (calls.Getpgid target)) pid own.now bag.old) }
    ensures err { OnErr result (bag.new ≡ bag.old) }
{
    decide_look(alloc, pid, Column::Group, target, own, bag)
}

/// Decides getsid: asks for the record of another process, or answers the session.
///
/// # Errors
/// NoMemory where there is no room for the name that is asked for; the bag is as before.
pub fn decide_getsid(
    alloc: Global,
    pid: Pid,
    target: u32,
    own: &Own,
    bag: &mut Bag,
) -> Result<Outcome, NoMemory>
    requires { HasBase own.now pid bag.old }
    ensures answer { IfOk result (λ outcome. answered outcome bag.new ≡ decide_by (calls.Getsid target) (effect_of (calls.Getsid target)) pid own.now bag.old) }
    ensures err { OnErr result (bag.new ≡ bag.old) }
{
    decide_look(alloc, pid, Column::Session, target, own, bag)
}
