//! The vector of decisions as code: each question about a process is answered on the records that are held.
#![tactic(auto)]

mod happening;
mod parts;
mod vector;
mod work;

pub use vector::UnixOps;
