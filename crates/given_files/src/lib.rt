//! What an input means to the commands that read one: a world and the turns of its schedule, or its least fault.
#![tactic(auto)]

mod faults;
mod input;
pub mod laws;

pub use faults::fault_answer;
pub use input::{Given, read_given, read_runnable};
