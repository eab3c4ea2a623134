//! A file's nodes are served by threads: what `run` answers, which is the history and the turns that gave it.
#![tactic(auto)]

pub mod laws;
mod served;
mod tops;

pub use tops::run_top;
