//! How a command ends, and what it promises of its two ends: how much it reads, what it writes, and when each status comes.
#![tactic(auto)]

mod answers;
mod status;

pub use answers::{Answer, Reader, put, read_and_answer, read_input};
pub use status::Status;
