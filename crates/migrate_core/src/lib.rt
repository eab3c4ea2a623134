//! migrate and push, decided on records.
#![tactic(auto)]

ghost use Rattle.migrate_core.specs.Moves.{MovesAnswered};

mod moves;

pub use moves::{decide_migrate, decide_push};

/// Each migration and each push is answered by a step of the one kernel, by the way to the node, or by asking for what lacks.
pub fn moves_are_lawful()
    ensures { MovesAnswered }
{}
