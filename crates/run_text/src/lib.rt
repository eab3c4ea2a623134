//! Schedules, read and written: which turns the nodes take, one after another.
#![tactic(auto)]

pub mod laws;
mod schedule;

pub use schedule::{put_schedule, read_schedule, turns_in};
