// The processes that a file describes.
use unix_names::{Act, NodeId, Pid, Seq, SigSet};

/// A process as a statement names it: 0, 1, nobody, the process itself, whoever forked it, or what a variable holds.
#[derive(Clone, Copy, Debug, PartialEq, Eq)]
pub enum Arg {
    Zero,
    One,
    Nobody,
    Own,
    Maker,
    Var(usize),
}

/// A statement of a script. Scripts and variables go by their numbers, from 0.
#[derive(Clone, Copy, Debug, PartialEq, Eq)]
pub enum Statement {
    Getpid,
    Getppid,
    Getpgid(Arg),
    Getsid(Arg),
    Fork {
        var: usize,
        script: usize,
        at: Option<NodeId>,
    },
    Exec(usize),
    Exit(u32),
    Wait {
        sleeps: bool,
        any: bool,
        minus: bool,
        arg: Arg,
        stopped: bool,
        continued: bool,
    },
    Kill {
        minus: bool,
        arg: Arg,
        sig: u32,
    },
    Setpgid {
        pid: Arg,
        minus: bool,
        pgid: Arg,
    },
    Setsid,
    Action {
        sig: u32,
        act: Act,
    },
    Mask(SigSet),
    Pending,
    Migrate(NodeId),
}

/// What a process does, one statement after another.
#[derive(Debug, Drop)]
pub struct Script {
    pub statements: Seq<Statement>,
}

/// A process from the first: where it starts, which script it runs, the variable that holds its pid everywhere, its user, and the start whose group and session it joins.
#[derive(Clone, Copy, Debug, PartialEq, Eq)]
pub struct Start {
    pub node: NodeId,
    pub script: usize,
    pub var: usize,
    pub pid: Pid,
    pub uid: u32,
    pub joined: Option<usize>,
}

/// What a file describes: how many nodes and variables there are, the scripts, and the processes from the first.
#[derive(Debug, Drop)]
pub struct World {
    pub nodes: u32,
    pub vars: usize,
    pub scripts: Seq<Script>,
    pub starts: Seq<Start>,
}
