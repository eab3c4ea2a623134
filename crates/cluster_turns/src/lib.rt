//! The turns of a node of a cluster: questions, what follows from their answers, and what a turn leaves.
#![tactic(auto)]
