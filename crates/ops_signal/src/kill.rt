// Kill.
ghost use Rattle.std.specs.Prelude.{◌≡◌, ℤ, [], true, Some, IsSome, IfOk, OnErr};
ghost use Rattle.unix_names.specs.States.{is_living};
ghost use Rattle.unix_calls.specs.Calls.{IsName, target_of};
ghost use Rattle.unix_calls.specs.declared.Call.TheVariants as calls;
ghost use Rattle.unix_calls.specs.declared.Entry.TheVariants as entries;
ghost use Rattle.signal_state.specs.Signals.{Signals};
ghost use Rattle.vproc_record.specs.declared.Vproc.{Vproc as TheVproc};
ghost use Rattle.record_bag.specs.Bags.{vproc_in, group_in};
ghost use Rattle.record_bag.specs.Decisions.{answered};
ghost use Rattle.decide_law.specs.Agrees.{group_at};
ghost use Rattle.decide_law.specs.Base.{HasBase};
ghost use Rattle.decide_law.specs.Footprints.{kill_footprint};
ghost use Rattle.decide_law.specs.MethodNeeds.{wanted};
ghost use Rattle.decide_law.specs.Nudges.{but_caller, others_of};
ghost use Rattle.decide_law.specs.Parts.{EachHeld, decide_by};
ghost use Rattle.ops_signal.specs.Kill.{send_group, send_one, kill_effect};
ghost use Rattle.ops_signal.specs.MethodKill.{effect_by, TellsHeld};
ghost use Rattle.ops_signal.specs.Decide.{effect_of};

use crate::permission::{allowed, is_sendable, kill_refusal};
use decide_law::{done_quiet, finish_with, is_none, settle_and_append, want, want_living_group};
use group_record::{Allow, Group, LogEntry, Member};
use record_bag::{Bag, Outcome};
use signal_state::Own;
use std::alloc::Global;
use unix_calls::{Call, Entry, Phase, Reply, Target, target_of};
use unix_names::{Name, NoMemory, Pid, SYSTEM, Seq, Signal, is_living, signal_of};
use vproc_record::Vproc;

/// What a kill does: it is answered and sends nothing, or it is fine and puts an entry into the log of a group, and nudges these processes.
#[derive(Debug, Drop)]
enum Sending {
    Nothing(Reply),
    Told {
        group: Pid,
        entry: LogEntry,
        nudges: Seq<Pid>,
    },
}

// The names that a kill is decided on and that lack.
fn kill_names(alloc: Global, bag: &Bag, target: Target, sig: u32) -> Result<Seq<Name>, NoMemory>
    ensures { IfOk result (λ names. names ≡ wanted bag.now (kill_footprint bag.now target sig) []) }
{
    let mut names = Seq::new(alloc);
    if !is_sendable(sig) {
        return Ok(names);
    }
    match target {
        Target::OwnGroup => {}
        Target::One(t) => {
            if t != SYSTEM {
                want_living_group(&mut names, bag, t)?;
            }
        }
        Target::InGroup(id) => want(&mut names, bag, Name::G(id))?,
    }
    Ok(names)
}

// A process, unless it is the caller.
fn but_caller(alloc: Global, caller: Pid, pid: Pid) -> Result<Seq<Pid>, NoMemory>
    ensures { IfOk result (λ pids. pids ≡ but_caller caller pid) }
{
    let mut pids = Seq::new(alloc);
    if pid != caller {
        pids.push(pid)?;
    }
    Ok(pids)
}

// The members but the caller, in order.
fn others_of(alloc: Global, caller: Pid, members: &[Member]) -> Result<Seq<Pid>, NoMemory>
    ensures { IfOk result (λ pids. pids ≡ others_of caller members.now) }
{
    let mut pids = Seq::new(alloc);
    for m in members {
        if m.pid != caller {
            pids.push(m.pid)?;
        }
    }
    Ok(pids)
}

fn to_group(
    alloc: Global,
    pid: Pid,
    v: &Vproc,
    sig: u32,
    signal: Signal,
    id: Pid,
    bag: &Bag,
) -> Result<Sending, NoMemory>
    ensures effect { IfOk result (λ sending. (z : ℤ) (x : Signals) → effect_by pid z sig x sending ≡ send_group x pid v.now z sig signal id (group_in bag.now id)) }
    ensures held { IfOk result (TellsHeld bag.now) }
{
    let Some(g) = bag.group(id) else {
        return Ok(Sending::Nothing(Reply::Fine));
    };
    let nudges = others_of(alloc, pid, g.members.as_slice())?;
    let entry = LogEntry {
        signal,
        target: None,
        allow: allowed(v, sig, g),
    };
    Ok(Sending::Told {
        group: id,
        entry,
        nudges,
    })
}

// One that has ended takes no signal.
fn to_one(
    alloc: Global,
    pid: Pid,
    sig: u32,
    signal: Signal,
    t: Pid,
    bag: &Bag,
) -> Result<Sending, NoMemory>
    requires { (u : TheVproc) → vproc_in bag.now t ≡ Some u → is_living u.life ≡ true → IsSome (group_at bag.now u.group) }
    ensures effect { IfOk result (λ sending. (z : ℤ) (x : Signals) → effect_by pid z sig x sending ≡ send_one x pid z sig signal t (vproc_in bag.now t)) }
    ensures held { IfOk result (TellsHeld bag.now) }
{
    let Some(u) = bag.vproc(t) else {
        return Ok(Sending::Nothing(Reply::Fine));
    };
    if !is_living(u.life) {
        return Ok(Sending::Nothing(Reply::Fine));
    }
    let nudges = but_caller(alloc, pid, t)?;
    let entry = LogEntry {
        signal,
        target: Some(t),
        allow: Allow::All,
    };
    Ok(Sending::Told {
        group: u.group,
        entry,
        nudges,
    })
}

// What a kill does, told by records of which none lacks.
fn sending_of(
    alloc: Global,
    pid: Pid,
    v: &Vproc,
    target: i64,
    sig: u32,
    bag: &Bag,
) -> Result<Sending, NoMemory>
    requires name { IsName target }
    requires held { EachHeld bag.now (kill_footprint bag.now (target_of target) sig) }
    ensures effect { IfOk result (λ sending. (x : Signals) → effect_by pid target sig x sending ≡ kill_effect bag.now x pid v.now target sig) }
    ensures held { IfOk result (TellsHeld bag.now) }
{
    if let Some(refusal) = kill_refusal(bag, v, target_of(target), sig) {
        return Ok(Sending::Nothing(Reply::Refused(refusal)));
    }
    let Some(signal) = signal_of(sig) else {
        return Ok(Sending::Nothing(Reply::Fine));
    };
    match target_of(target) {
        Target::OwnGroup => to_group(alloc, pid, v, sig, signal, v.group, bag),
        Target::One(t) => to_one(alloc, pid, sig, signal, t, bag),
        Target::InGroup(id) => to_group(alloc, pid, v, sig, signal, id, bag),
    }
}

fn called(pid: Pid, target: i64, sig: u32, reply: Reply) -> Entry
    ensures { result ≡ entries.Called pid (calls.Kill target sig) reply }
{
    Entry::Called {
        caller: pid,
        call: Call::Kill { target, sig },
        reply,
    }
}

/// Decides kill: asks for the records that lack; refuses with EINVAL a number that is no signal's, with EPERM the system process and those of whom the caller may signal none, with ESRCH a target that names nobody; else puts the signal into the log of the group that takes it, and nudges who is sent it.
///
/// # Errors
/// NoMemory where there is no room for a name, a nudge or the signal; the bag is as before.
pub fn decide_kill(
    alloc: Global,
    pid: Pid,
    target: i64,
    sig: u32,
    own: &Own,
    bag: &mut Bag,
) -> Result<Outcome, NoMemory>
    requires base { HasBase own.now pid bag.old }
    requires name { IsName target }
    ensures answer { IfOk result (λ outcome. answered outcome bag.new ≡ decide_by (calls.Kill target sig) (effect_of (calls.Kill target sig)) pid own.now bag.old) }
    ensures err { OnErr result (bag.new ≡ bag.old) }
{
    let names = kill_names(alloc, bag, target_of(target), sig)?;
    if !is_none(&names) {
        return Ok(Outcome::Need(names));
    }
    let Some(v) = bag.vproc(pid) else {
        unreachable!();
    };
    match sending_of(alloc, pid, v, target, sig, bag)? {
        Sending::Nothing(reply) => {
            let entry = called(pid, target, sig, reply);
            Ok(done_quiet(alloc, *own, pid, bag, Some(entry), Phase::Ready))
        }
        Sending::Told {
            group,
            entry,
            nudges,
        } => {
            let mut own = *own;
            let own_group = settle_and_append(&mut own, pid, group, entry, bag)?;
            let fine = called(pid, target, sig, Reply::Fine);
            Ok(finish_with(nudges, own, own_group, bag, Some(fine), Phase::Ready))
        }
    }
}
