//! The words of the system: names of processes and groups, nodes, signals and their sets, errors, and what becomes of a process.
#![tactic(auto)]

pub mod laws;
mod limits;
mod names;
mod seq;
mod sets;
mod signals;
mod states;

pub use limits::{MOST_CHILDREN, NO_PID, PIDS_PER_NODE};
pub use names::{NOBODY, Name, NoMemory, NodeId, Pid, SYSTEM, home_of, is_before};
pub use seq::Seq;
pub use sets::SigSet;
pub use signals::{
    ALL_SIGNALS, DefaultAct, Signal, default_of, number_of, signal_named, signal_of, word_of,
};
pub use states::{Act, Errno, Life, WaitStatus, is_living};
