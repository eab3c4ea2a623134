//! What a cluster holds, wherever it is: the one record of each name, what each process is, the serials; and that a decision keeps them right against the table of the one kernel.
#![tactic(auto)]
