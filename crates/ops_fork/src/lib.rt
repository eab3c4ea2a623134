//! fork, decided on records.
#![tactic(auto)]

ghost use Rattle.ops_fork.specs.Decide.{ForkAnswered};

mod child;
mod fork;

pub use fork::decide_fork;

/// Each fork is answered by a step of the one kernel, by the way to the child's node, or by asking for what lacks.
pub fn fork_is_lawful()
    ensures { ForkAnswered }
{}
