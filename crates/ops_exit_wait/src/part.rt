// The calls of this part.
ghost use Rattle.std.specs.Prelude.{◌≡◌, IfOk, OnErr};
ghost use Rattle.unix_calls.specs.Calls.{HasNames};
ghost use Rattle.record_bag.specs.Decisions.{answered};
ghost use Rattle.decide_law.specs.Base.{HasBase};
ghost use Rattle.decide_law.specs.Parts.{decide_by};
ghost use Rattle.decide_law.specs.Vector.{IsFitting};
ghost use Rattle.ops_exit_wait.specs.Decide.{IsExitWaitCall, effect_of};

use crate::new_program::decide_exec;
use crate::waitpid::decide_waitpid;
use ops_ending::decide_exit;
use record_bag::{Bag, Outcome};
use signal_state::Own;
use std::alloc::Global;
use unix_calls::Call;
use unix_names::{NoMemory, Pid};

/// Decides exec, exit or waitpid.
///
/// # Errors
/// NoMemory where there is no room for what the decision makes; the bag is as before.
pub fn decide_part(
    alloc: Global,
    pid: Pid,
    call: &Call,
    own: &Own,
    bag: &mut Bag,
) -> Result<Outcome, NoMemory>
    requires part { IsExitWaitCall call.now }
    requires names { HasNames call.now }
    requires base { HasBase own.now pid bag.old }
    requires fits { IsFitting pid own.now bag.old }
    ensures answer { IfOk result (λ outcome. answered outcome bag.new ≡ decide_by call.now (effect_of call.now) pid own.now bag.old) }
    ensures err { OnErr result (bag.new ≡ bag.old) }
{
    match *call {
        Call::Exec => Ok(decide_exec(alloc, pid, own, bag)),
        Call::Exit(code) => decide_exit(alloc, pid, code, own, bag),
        Call::Waitpid {
            sel,
            stopped,
            continued,
        } => decide_waitpid(alloc, pid, sel, stopped, continued, own, bag),
        _ => unreachable!(),
    }
}
