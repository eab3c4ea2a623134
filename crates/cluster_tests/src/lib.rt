//! Tests of nodes and of the messages between them, over the kernel's decisions: each on a world as a file tells it, with the history told from the rules.
#![tactic(auto)]

#[cfg(test)]
mod files;
#[cfg(test)]
mod nodes;
#[cfg(test)]
mod one_node;
#[cfg(test)]
mod runs;
