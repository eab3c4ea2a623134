//! Job files as values, the plan of a shell that a job file asks for, and the world of scripts that carries it out.
#![tactic(auto)]

mod files;
mod limits;

pub use files::{Job, JobFile, JobLine, Phase, Stage};
pub use limits::{MOST_STAGES, MOST_STAGES_IN_ALL};
