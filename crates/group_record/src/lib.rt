//! The record of a process group: its members, and the log of the signals that were sent to it.
#![tactic(auto)]

mod group;
mod log;
mod member;
mod members;

pub use group::Group;
pub use log::{Allow, LogEntry};
pub use member::Member;
pub use members::Members;
