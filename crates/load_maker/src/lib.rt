//! Made files: a load of some size for some nodes, which a seed determines.
#![tactic(auto)]

mod draws;
mod limits;
mod made;

pub use limits::LARGEST_LOAD;
pub use made::make;
