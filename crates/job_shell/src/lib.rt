//! The compiler of job files: the world of scripts that a job file becomes, and its text.
#![tactic(auto)]

mod acts;
mod compiling;
mod stages;
mod worlds;

pub use compiling::{Compiled, compile};
pub use stages::{first_of, stages_of};
pub use worlds::world_of;
