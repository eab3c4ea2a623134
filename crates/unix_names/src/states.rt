// Errors, actions, and what becomes of a process.
ghost use Rattle.std.specs.Prelude.{◌≡◌};
ghost use Rattle.unix_names.specs.States.{is_living};

use crate::signals::Signal;

/// Why a call is refused (POSIX.1-2017, XSH 2.3).
#[derive(Clone, Copy, Debug, PartialEq, Eq)]
pub enum Errno {
    EPERM,
    ESRCH,
    EACCES,
    EINVAL,
    ECHILD,
    EAGAIN,
}

/// What a process does with a signal (POSIX.1-2017, XSH 2.4.3).
#[derive(Clone, Copy, Debug, PartialEq, Eq)]
pub enum Act {
    Default,
    Ignore,
    Catch,
}

/// What `waitpid` tells of a child (POSIX.1-2017, XSH wait).
#[derive(Clone, Copy, Debug, PartialEq, Eq)]
pub enum WaitStatus {
    Exited(u8),
    Killed(Signal),
    Stopped(Signal),
    Continued,
}

/// Whether a process runs, is stopped, or has ended and is not yet waited for.
#[derive(Clone, Copy, Debug, PartialEq, Eq)]
pub enum Life {
    Runs,
    Stopped,
    Ended(WaitStatus),
}

/// Whether the process has not ended.
pub fn is_living(life: Life) -> bool
    ensures { result ≡ is_living life }
{
    !matches!(life, Life::Ended(_))
}
