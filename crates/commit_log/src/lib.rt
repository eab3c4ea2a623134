//! The commit word: threads draw places for the steps of nodes, for every machine with the merge law and the causal law, and all steps by place are one lawful list.
#![tactic(auto)]

mod log;
mod machine;
mod pass;
mod word;

pub use log::CommitLog;
pub use machine::Machine;
pub use pass::{NodePass, Note};
