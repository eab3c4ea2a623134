//! Tests of locked nodes and of the threads that serve them, over the kernel's decisions.
#![tactic(auto)]

#[cfg(test)]
mod files;
#[cfg(test)]
mod holds;
#[cfg(test)]
mod served;
