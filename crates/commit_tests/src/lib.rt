//! Tests of the commit word, on a small machine: tokens that one node gives and another takes.
#![tactic(auto)]

mod handing;
#[cfg(test)]
mod tests;
mod tokens;

pub use handing::hand_over;
pub use tokens::Tokens;
