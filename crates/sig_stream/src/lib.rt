//! The signals that are on their way to a process: its backlog, and then what its group's log has for it.
#![tactic(auto)]

mod fold;
mod laws;
mod moves;

pub use fold::{fold_all, fold_and_settle, fold_tail, stream_len, tail_len};
pub use laws::{appending_grows_streams, leaving_keeps_streams, trimming_keeps_streams};
pub use moves::{is_listed, regroup, settle};
