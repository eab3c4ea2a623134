//! The command `jobs`: a job file is run, and the user is told how each stage ended.
#![tactic(auto)]

pub mod laws;
mod names;
mod reports;
mod running;
mod texts;

pub use reports::reported_status;
pub use running::{Jobs, jobs_top};
