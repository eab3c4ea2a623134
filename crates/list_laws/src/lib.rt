//! Lists whose elements are found by a number, their key: the definitions (`specs/Keyed.antt`), and the lemmas on finding, filtering, mapping and counting (`proofs/`) that the crates above cite. It has no code.
#![tactic(auto)]
