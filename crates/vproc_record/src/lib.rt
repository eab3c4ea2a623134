//! The record of a process: its names, its relations, and the signals that were sent to it before it changed groups.
#![tactic(auto)]

mod children;
mod vproc;

pub use children::{Children, Refused};
pub use vproc::Vproc;
