//! Events that signals bring, decided on records: one is caught or discarded, or the process stops or continues.
#![tactic(auto)]

ghost use Rattle.ops_deliver.specs.Decide.{EventsAnswered};

mod deliver;
mod parent;
mod taking;
mod turn;

pub use deliver::deliver_part;

/// Each event of this part is answered by a step of the one kernel, or by asking for what lacks.
pub fn events_are_steps()
    ensures { EventsAnswered }
{}
