//! The state of one node, and what the parts of a turn do to it: who is ready, parked or marked, how records come home, what goes out, and what a decision leaves.
#![tactic(auto)]

mod endings;
mod images;
mod places;
mod ready;
mod returns;
mod state;

pub use ready::{ReadyQueue, Waiting};
pub use state::{Sent, State};
