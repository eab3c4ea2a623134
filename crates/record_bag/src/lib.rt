//! What a courier carries: records of processes and groups under their names, and the decisions that are made over them.
#![tactic(auto)]

mod bag;
mod held;
mod present;
mod vector;

pub use bag::Bag;
pub use held::Held;
pub use present::record_mut;
pub use vector::{Decided, OpVector, Outcome, Site};
