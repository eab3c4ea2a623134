//! Pasts of a list of steps, node by node: of each node's steps a past has a beginning, and two pasts together have the longer of two.
#![tactic(auto)]

ghost use Rattle.std.specs.Prelude.{ℕ, List, Option};
ghost use Rattle.pasts.specs.Pasts.{IsPast};
ghost use Rattle.past_lists.specs.Beginnings.{PastsBegin, PastsJoin};

/// Of each node's steps a past has a beginning, with their places.
pub fn pasts_are_beginnings<S>()
    ensures { (node_of : S → ℕ) → (log : List S) → (past : List (Option S)) → IsPast node_of log past → PastsBegin node_of log past }
{}

/// Two pasts of one list are a past together, and of each node it has the longer of their two lists.
pub fn pasts_join<S>()
    ensures { (node_of : S → ℕ) → (log : List S) → (p : List (Option S)) → (q : List (Option S)) → IsPast node_of log p → IsPast node_of log q → PastsJoin node_of log p q }
{}
