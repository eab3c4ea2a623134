//! The signals of one process: what is pending, blocked, ignored and caught, and what generating a signal does.
#![tactic(auto)]

mod laws;
mod own;
mod sig;

pub use laws::{generating, keeping};
pub use own::Own;
pub use sig::{Sig, is_ignored_by_default};
