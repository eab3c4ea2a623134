//! What is said of the history that an input holds: the verdict on it, the kernel's table after some of its entries, and the ground of one of them.
#![tactic(auto)]

mod hearing;
pub mod laws;
mod tables;
mod top;

pub use top::{audit_top, table_top, why_top};
