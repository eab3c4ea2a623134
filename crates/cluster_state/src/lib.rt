//! Many nodes and the wires between them as plain values, their turns, and the runs of schedules: definitions alone.
#![tactic(auto)]
