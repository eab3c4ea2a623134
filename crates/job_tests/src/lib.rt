//! The tests of job files: what they become, and each fault.
#![tactic(auto)]

#[cfg(test)]
mod compiling;
