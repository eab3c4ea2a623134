//! What is true of any legal history that follows its scripts, on however many nodes it came about: which processes live and are awake after a step, how far each is, what its calls name, and what is pending. It has no code; the crates above cite its lemmas (`proofs/`).
#![tactic(auto)]
