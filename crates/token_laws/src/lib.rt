//! A small machine for tests of the commit word: tokens that one node gives and another takes, and that it has the two laws.
#![tactic(auto)]

/// Node 0 gives a token, or node 1 takes one.
#[derive(Clone, Copy)]
pub enum Move {
    Give,
    Take,
}
