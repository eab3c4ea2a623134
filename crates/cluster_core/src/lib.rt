//! Many nodes run: the nodes of a world with what is on its way to each, a turn of one of them as it changes the cluster, and the run of a schedule.
#![tactic(auto)]

mod arrivals;
mod cluster;
mod playing;
mod running_on;

pub use arrivals::Arrivals;
pub use cluster::{Place, first_places};
pub use playing::{Played, run};
pub use running_on::run_on;
