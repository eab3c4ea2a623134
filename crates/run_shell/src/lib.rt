//! Files are run on their nodes: what `replay` and `load` answer, and what `make` writes.
#![tactic(auto)]

pub mod laws;
mod loads;
mod replays;
#[cfg(test)]
mod tests;
mod tops;

pub use loads::load;
pub use replays::{Replay, ReplayTwo};
pub use tops::{load_top, make_top, replay_top, replay_two_top};
