//! Worlds written as files.
#![tactic(auto)]

mod files;
mod statements;

pub use files::write_file;
