//! Job files as texts: the jobs that a file describes and what is done with them, or the least fault of the file.
#![tactic(auto)]

mod drafts;
mod faults;
mod files;
mod names;
mod rows;
mod stages;

pub use faults::{JobFault, JobKind, JobRefusal};
pub use files::read_jobs;
