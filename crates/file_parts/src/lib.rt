//! The parts of a file: the world, the schedule and the history, told by their lines.
#![tactic(auto)]

mod parts;

pub use parts::{Parts, Span, split};
