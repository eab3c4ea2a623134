//! exec, exit and waitpid, decided on records.
#![tactic(auto)]

ghost use Rattle.ops_exit_wait.specs.Decide.{ExitWaitCallsAnswered};

mod children;
mod findings;
mod new_program;
mod part;
mod taking;
mod waitpid;

pub use new_program::decide_exec;
pub use part::decide_part;
pub use waitpid::decide_waitpid;

/// Each call of this part is answered by a step of the one kernel, or by asking for what lacks.
pub fn exit_wait_calls_are_steps()
    ensures { ExitWaitCallsAnswered }
{}
