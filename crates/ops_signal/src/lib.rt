//! The calls on signals, decided on records: kill, action, mask and pending.
#![tactic(auto)]

ghost use Rattle.std.specs.Prelude.{◌≡◌, IfOk, OnErr};
ghost use Rattle.unix_calls.specs.Calls.{HasNames};
ghost use Rattle.record_bag.specs.Decisions.{answered};
ghost use Rattle.decide_law.specs.Base.{HasBase};
ghost use Rattle.decide_law.specs.Parts.{decide_by};
ghost use Rattle.ops_signal.specs.Decide.{IsSignalCall, SignalCallsAnswered, effect_of};

mod kill;
mod permission;
mod settings;

pub use kill::decide_kill;
use record_bag::{Bag, Outcome};
pub use settings::{decide_action, decide_mask, decide_pending};
use signal_state::Own;
use std::alloc::Global;
use unix_calls::Call;
use unix_names::{NoMemory, Pid};

/// Each call of this part is answered by a step of the one kernel, or by asking for what lacks.
pub fn signal_calls_are_steps()
    ensures { SignalCallsAnswered }
{}

/// Decides a call of this part.
///
/// # Errors
/// NoMemory, after which the bag is as before.
pub fn decide_part(
    alloc: Global,
    pid: Pid,
    call: &Call,
    own: &Own,
    bag: &mut Bag,
) -> Result<Outcome, NoMemory>
    requires base { HasBase own.now pid bag.old }
    requires part { IsSignalCall call.now }
    requires names { HasNames call.now }
    ensures answer { IfOk result (λ outcome. answered outcome bag.new ≡ decide_by call.now (effect_of call.now) pid own.now bag.old) }
    ensures err { OnErr result (bag.new ≡ bag.old) }
{
    match *call {
        Call::Kill { target, sig } => decide_kill(alloc, pid, target, sig, own, bag),
        Call::Action { sig, act } => Ok(decide_action(alloc, pid, sig, act, own, bag)),
        Call::Mask(mask) => Ok(decide_mask(alloc, pid, mask, own, bag)),
        Call::Pending => Ok(decide_pending(alloc, pid, own, bag)),
        _ => unreachable!(),
    }
}
