//! The one kernel: what the rules say of an entry, and the table after it.
#![tactic(auto)]

mod kernel;
mod verdict;

pub use kernel::{Kernel, process_of};
pub use verdict::{Rule, Verdict};
