//! The end of a process, decided on records: exit, and a signal that ends it.
#![tactic(auto)]

ghost use Rattle.ops_ending.specs.Laws.{ExitIsStep, KilledIsRight};

mod end_names;
mod ending;
mod later;
mod left_groups;
mod left_vprocs;
mod told;

pub use ending::{decide_exit, decide_killed};

/// An exit is a step of the one kernel.
pub fn exit_is_a_step()
    ensures { ExitIsStep }
{}

/// The answer where a signal that ends the process comes first is such a step, or asks for what lacks.
pub fn killed_is_right()
    ensures { KilledIsRight }
{}
