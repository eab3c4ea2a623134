//! Values by process id in rising order, and lines of those who wait: what the state of a node is made of.
#![tactic(auto)]

mod entries;
mod lists;
mod queue;
mod sparse;
mod table;

pub use entries::Entry;
pub use lists::{join, put_members, take_members};
pub use queue::Queue;
pub use sparse::SparseTable;
pub use table::Table;
