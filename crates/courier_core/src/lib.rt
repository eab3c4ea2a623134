//! Couriers: they carry a process's image from node to node and gather the records that its job needs, the least name first.
#![tactic(auto)]

mod courier;
mod wants;

pub use courier::{Courier, Message};
