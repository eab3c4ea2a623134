//! That nobody who could go on is left parked: who has nothing to do, who is told, and how moves and decisions keep it.
#![tactic(auto)]
