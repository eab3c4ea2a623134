//! The commands on job files, from the bytes read to the bytes written.
#![tactic(auto)]

mod compiling;
pub mod laws;

pub use compiling::{Compile, compile_top, fault_answer};
