//! What a decision owes the one kernel, and what all decisions have in common.
#![tactic(auto)]

mod append;
mod base;
mod keeping;
mod needs;
mod rounds;
mod tally;

pub use append::settle_and_append;
pub use base::{base_need, folded};
pub use keeping::{Kept, settle_keeping, unsettle};
pub use needs::{is_none, want, want_living_children, want_living_group};
pub use rounds::{done_quiet, finish, finish_with, settle_in, trim_in};
pub use tally::{count_links, count_stopped};
