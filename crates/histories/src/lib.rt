//! Histories, written and read back: which entries the lines of a text mean, or the first line that is bad.
#![tactic(auto)]

mod entries;
mod kinds;
pub mod laws;
mod loose;
mod reader;
mod stamped;
mod writer;

pub use reader::{BadLine, read_history};
pub use stamped::{Stamped, put_history_two, read_history_two};
pub use writer::{put_history, put_set, put_status};
