//! Locked nodes and the threads that serve them: each turn takes its place in one order by the commit word, and what the nodes did by place is a list of possible turns.
#![tactic(auto)]

mod committing;
mod letters;
mod machine;
mod merging;
mod names;
mod node;
mod serving;
mod stations;

pub use letters::{Inbox, Letter, Letters};
pub use machine::NodeMachine;
pub use names::{LogName, WorldName};
pub use node::{NodeState, Worked};
pub use serving::serve;
pub use stations::{LockedNode, Station};
