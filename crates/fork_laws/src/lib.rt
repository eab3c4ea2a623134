//! How many processes a history makes that follows the scripts of a valid world, as the contract of a function without a body.
#![tactic(auto)]

ghost use Rattle.fork_laws.specs.Laws.{ForksAreFew};

/// A history that follows the scripts of a valid world makes at most 1,024 processes, however long it is.
pub fn forks_are_few()
    ensures { ForksAreFew }
{}
