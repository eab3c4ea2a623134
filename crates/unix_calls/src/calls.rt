// Calls, replies, and the entries of a history.
ghost use Rattle.std.specs.Prelude.{◌≡◌};
ghost use Rattle.unix_calls.specs.Calls.{IsName, target_of, selector_of};

use unix_names::{Act, Errno, Pid, SigSet, Signal, WaitStatus};

/// A call of a process.
///
/// The target of `Kill`, the selector of `Waitpid` and the group of `Setpgid` are from -4,294,967,295 to 4,294,967,295.
#[derive(Clone, Copy, Debug, PartialEq, Eq)]
pub enum Call {
    Getpid,
    Getppid,
    Getpgid(u32),
    Getsid(u32),
    Fork,
    Exec,
    Exit(u32),
    Waitpid {
        sel: i64,
        stopped: bool,
        continued: bool,
    },
    Kill {
        target: i64,
        sig: u32,
    },
    Setpgid {
        pid: u32,
        pgid: i64,
    },
    Setsid,
    Action {
        sig: u32,
        act: Act,
    },
    Mask(SigSet),
    Pending,
    Migrate,
}

/// What a call is answered. `NoReply` is that of `Exit` alone.
#[derive(Clone, Copy, Debug, PartialEq, Eq)]
pub enum Reply {
    Fine,
    Number(u32),
    Set(SigSet),
    Child(Pid, WaitStatus),
    Again,
    Refused(Errno),
    NoReply,
}

/// What happens to a process without a call of its own.
#[derive(Clone, Copy, Debug, PartialEq, Eq)]
pub enum Event {
    Caught(Signal),
    Discarded(Signal),
    StoppedBy(Signal),
    EndedBy(Signal),
    Continued,
    Moved,
}

/// A line of a history.
#[derive(Clone, Copy, Debug, PartialEq, Eq)]
pub enum Entry {
    Called {
        caller: Pid,
        call: Call,
        reply: Reply,
    },
    Happened {
        pid: Pid,
        event: Event,
    },
}

/// Whom `kill` names (POSIX.1-2017, XSH kill).
#[derive(Clone, Copy, Debug, PartialEq, Eq)]
pub enum Target {
    OwnGroup,
    One(Pid),
    InGroup(Pid),
}

/// Which children `waitpid` asks for (POSIX.1-2017, XSH wait).
#[derive(Clone, Copy, Debug, PartialEq, Eq)]
pub enum Selector {
    Any,
    OwnGroup,
    One(Pid),
    InGroup(Pid),
}

/// Whom a number of `kill` names: 0 the caller's group, a positive number that process, a negative one that group.
pub fn target_of(target: i64) -> Target
    requires { IsName target }
    ensures { result ≡ target_of target }
{
    if target == 0 {
        Target::OwnGroup
    } else if target > 0 {
        Target::One(Pid(target as u32))
    } else {
        Target::InGroup(Pid((-target) as u32))
    }
}

/// Which children a number of `waitpid` names: -1 any, 0 those in the caller's group, a positive number that child, another those in that group.
pub fn selector_of(sel: i64) -> Selector
    requires { IsName sel }
    ensures { result ≡ selector_of sel }
{
    if sel == -1 {
        Selector::Any
    } else if sel == 0 {
        Selector::OwnGroup
    } else if sel > 0 {
        Selector::One(Pid(sel as u32))
    } else {
        Selector::InGroup(Pid((-sel) as u32))
    }
}
