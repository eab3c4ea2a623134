//! What is true of the faults of files by the definitions, as the contracts of functions without a body.
#![tactic(auto)]

ghost use Rattle.fault_laws.specs.Told.{LeastIsTold, SpellsOrFails};

/// The fault that is told of a part of a file is its least one.
pub fn least_is_told()
    ensures { LeastIsTold }
{}

/// Either a part of a file spells one world and has no fault, or it has one least fault and spells none.
pub fn part_spells_or_fails()
    ensures { SpellsOrFails }
{}
