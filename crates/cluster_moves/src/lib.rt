//! Where records and processes are, each in one place, and the moves of one thing from a container to another.
#![tactic(auto)]
