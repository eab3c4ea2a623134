//! One node: turns over any vector of decisions.
#![tactic(auto)]

mod first;
mod led;
mod node;
mod refusal;
mod step;
mod turns;

pub use node::{Node, StepOut};
pub use refusal::{GoRefusal, TakeRefusal};
