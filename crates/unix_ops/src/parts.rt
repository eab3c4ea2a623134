// Which part decides a call.
ghost use Rattle.unix_ops.specs.MethodParts.{IsOfPart};

use unix_calls::Call;

/// A part of the decisions on calls.
#[derive(Clone, Copy)]
pub enum Part {
    Groups,
    Signals,
    ExitWait,
    Fork,
    Migrate,
}

/// The part that decides a call.
pub fn part_of(call: &Call) -> Part
    ensures { IsOfPart result call.now }
{
    match call {
        Call::Getpid
        | Call::Getppid
        | Call::Getpgid(_)
        | Call::Getsid(_)
        | Call::Setpgid { .. }
        | Call::Setsid => Part::Groups,
        Call::Kill { .. } | Call::Action { .. } | Call::Mask(_) | Call::Pending => Part::Signals,
        Call::Exec | Call::Exit(_) | Call::Waitpid { .. } => Part::ExitWait,
        Call::Fork => Part::Fork,
        Call::Migrate => Part::Migrate,
    }
}
