//! The table of processes: its rows, what is looked up in it, and each change that may be made of it.
#![tactic(auto)]

mod changes;
mod index;
mod marks;
mod orphans;
mod removal;
mod rows;
mod signals;
mod table;

pub use changes::Change;
pub use orphans::{has_stopped, is_link, is_orphaned};
pub use rows::{Row, count_children, find_named, find_row, is_among, is_stopped};
pub use table::ProcessTable;
