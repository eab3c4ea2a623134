//! Lists of steps, each of one node, and the parts of them that one node can know of: definitions alone, for any machine.
#![tactic(auto)]
