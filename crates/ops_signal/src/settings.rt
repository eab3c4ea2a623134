// Actions, masks and pending signals.
ghost use Rattle.std.specs.Prelude.{◌≡◌, IsSome, IfNone};
ghost use Rattle.std.specs.Option.{option_map};
ghost use Rattle.unix_names.specs.declared.Signal.TheVariants.{Chld};
ghost use Rattle.unix_names.specs.Sets.{has};
ghost use Rattle.unix_names.specs.Signals.{signal_of};
ghost use Rattle.ordered_table.specs.Entries.{IsRising};
ghost use Rattle.kernel_rules.specs.Action.{action_refusal};
ghost use Rattle.decide_law.specs.Agrees.{vproc_at};
ghost use Rattle.decide_law.specs.Effects.{only, same, changed};
ghost use Rattle.ops_signal.specs.MethodActions.{telling, acted};
ghost use Rattle.unix_calls.specs.declared.Call.TheVariants as calls;
ghost use Rattle.unix_calls.specs.declared.Entry.TheVariants as entries;
ghost use Rattle.record_bag.specs.Decisions.{answered};
ghost use Rattle.decide_law.specs.Base.{HasBase};
ghost use Rattle.decide_law.specs.Parts.{decide_by};
ghost use Rattle.ops_signal.specs.Decide.{effect_of};

use decide_law::{finish, settle_in};
use record_bag::{Bag, Outcome};
use signal_state::Own;
use std::alloc::Global;
use unix_calls::{Call, Entry, Phase, Reply};
use unix_names::{Act, Errno, Pid, SigSet, Signal, signal_of};

/// Decides mask: answers the old mask, and sets this one without KILL and STOP. It takes no memory.
pub fn decide_mask(alloc: Global, pid: Pid, mask: SigSet, own: &Own, bag: &mut Bag) -> Outcome
    requires { HasBase own.now pid bag.old }
    ensures { answered result bag.new ≡ decide_by (calls.Mask mask) (effect_of (calls.Mask mask)) pid own.now bag.old }
{
    let mut own = *own;
    let group = settle_in(&mut own, pid, bag);
    let before = own.sig.set_mask(mask);
    let entry = Entry::Called {
        caller: pid,
        call: Call::Mask(mask),
        reply: Reply::Set(before),
    };
    finish(alloc, own, group, bag, Some(entry), Phase::Ready)
}

fn pending_of(own: &Own) -> SigSet
    ensures { result ≡ own.now.sig.pending }
{
    own.sig.pending
}

/// Decides pending: answers the signals that are pending. It takes no memory.
pub fn decide_pending(alloc: Global, pid: Pid, own: &Own, bag: &mut Bag) -> Outcome
    requires { HasBase own.now pid bag.old }
    ensures { answered result bag.new ≡ decide_by calls.Pending (effect_of calls.Pending) pid own.now bag.old }
{
    let mut own = *own;
    let group = settle_in(&mut own, pid, bag);
    let entry = Entry::Called {
        caller: pid,
        call: Call::Pending,
        reply: Reply::Set(pending_of(&own)),
    };
    finish(alloc, own, group, bag, Some(entry), Phase::Ready)
}

// Whether a process ignores the ends of its children.
fn ignores_children(own: &Own) -> bool
    ensures { result ≡ has own.now.sig.ignored Chld }
{
    own.sig.ignored.has(Signal::Chld)
}

// The record of a process tells whether it ignores the ends of its children.
fn tell_ignored(pid: Pid, ignores: bool, bag: &mut Bag)
    requires { IsSome (vproc_at bag.old pid) }
    ensures bag { bag.new ≡ changed (only pid (option_map (telling ignores))) same bag.old }
    ensures groups { bag.new.groups ≡ bag.old.groups }
{
    vprocs_rise(bag);
    if let Some(mut v) = bag.vprocs.replace(pid, None) {
        v.ignchld = ignores;
        bag.vprocs.replace(pid, Some(v));
    }
}

fn vprocs_rise(bag: &Bag)
    ensures { IsRising bag.now.vprocs }
{
    let _vprocs = bag.vprocs.as_slice();
}

/// Decides action: sets what the caller does with a signal; EINVAL for a number that is no signal's, and for KILL and STOP. It takes no memory.
pub fn decide_action(
    alloc: Global,
    pid: Pid,
    sig: u32,
    act: Act,
    own: &Own,
    bag: &mut Bag,
) -> Outcome
    requires { HasBase own.now pid bag.old }
    ensures { answered result bag.new ≡ decide_by (calls.Action sig act) (effect_of (calls.Action sig act)) pid own.now bag.old }
{
    let mut own = *own;
    let group = settle_in(&mut own, pid, bag);
    if let Some(refusal) = set_action(&mut own, sig, act) {
        let entry = called(pid, sig, act, Reply::Refused(refusal));
        return finish(alloc, own, group, bag, Some(entry), Phase::Ready);
    }
    tell_ignored(pid, ignores_children(&own), bag);
    let entry = called(pid, sig, act, Reply::Fine);
    finish(alloc, own, group, bag, Some(entry), Phase::Ready)
}

fn called(pid: Pid, sig: u32, act: Act, reply: Reply) -> Entry
    ensures { result ≡ entries.Called pid (calls.Action sig act) reply }
{
    Entry::Called {
        caller: pid,
        call: Call::Action { sig, act },
        reply,
    }
}

// Sets an action, unless it is refused.
fn set_action(own: &mut Own, sig: u32, act: Act) -> Option<Errno>
    ensures refusal { result ≡ action_refusal (signal_of sig) }
    ensures same { IsSome result → own.new ≡ own.old }
    ensures set { IfNone result (own.new ≡ acted sig act own.old) }
{
    let Some(signal) = signal_of(sig) else {
        return Some(Errno::EINVAL);
    };
    own.sig.set_action(signal, act).err()
}
