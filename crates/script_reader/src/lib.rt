//! Files that describe processes: the parts of a file, and the world that its first part means or the least fault of it.
#![tactic(auto)]

mod bodies;
mod cuts;
mod files;
mod gather;
mod lines;
mod marks;
mod names;
mod places;
mod starts;
mod statements;

pub use files::read_file;
