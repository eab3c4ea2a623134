//! That a cluster between two turns stands for the table of the one kernel and the scripts; the first cluster does.
#![tactic(auto)]
