//! The tests of what a node holds between two turns.
#![tactic(auto)]

#[cfg(test)]
mod states;
