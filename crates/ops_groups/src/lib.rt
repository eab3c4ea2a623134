//! The calls on groups and sessions, decided on records.
#![tactic(auto)]

ghost use Rattle.std.specs.Prelude.{◌≡◌, IfOk, OnErr};
ghost use Rattle.unix_calls.specs.Calls.{HasNames};
ghost use Rattle.record_bag.specs.Decisions.{answered};
ghost use Rattle.decide_law.specs.Base.{HasBase};
ghost use Rattle.decide_law.specs.Parts.{decide_by};
ghost use Rattle.ops_groups.specs.Decide.{IsGroupsCall, GroupsCallsAnswered, effect_of};
ghost use Rattle.decide_law.specs.Vector.{IsFitting};

mod bag_after;
mod joining;
mod lookups;
#[cfg(test)]
mod move_tests;
mod mover;
mod moves;
mod names;
mod refused;
mod settling;
mod tallies;

pub use lookups::{decide_getpgid, decide_getpid, decide_getppid, decide_getsid};
pub use moves::decide_move;
use record_bag::{Bag, Outcome};
use signal_state::Own;
use std::alloc::Global;
use unix_calls::Call;
use unix_names::{NoMemory, Pid};

/// Each call of this part is answered by a step of the one kernel, or by asking for what lacks.
pub fn groups_calls_are_steps()
    ensures { GroupsCallsAnswered }
{}

/// Decides a call of this part.
///
/// # Errors
/// NoMemory, after which the bag is as before.
pub fn decide_part(
    alloc: Global,
    pid: Pid,
    call: &Call,
    own: &Own,
    bag: &mut Bag,
) -> Result<Outcome, NoMemory>
    requires base { HasBase own.now pid bag.old }
    requires fits { IsFitting pid own.now bag.old }
    requires part { IsGroupsCall call.now }
    requires names { HasNames call.now }
    ensures answer { IfOk result (λ outcome. answered outcome bag.new ≡ decide_by call.now (effect_of call.now) pid own.now bag.old) }
    ensures err { OnErr result (bag.new ≡ bag.old) }
{
    match *call {
        Call::Getpid => Ok(decide_getpid(alloc, pid, own, bag)),
        Call::Getppid => Ok(decide_getppid(alloc, pid, own, bag)),
        Call::Getpgid(target) => decide_getpgid(alloc, pid, target, own, bag),
        Call::Getsid(target) => decide_getsid(alloc, pid, target, own, bag),
        Call::Setpgid { .. } | Call::Setsid => decide_move(alloc, pid, call, own, bag),
        _ => unreachable!(),
    }
}
