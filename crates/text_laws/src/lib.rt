//! Texts that are written and read back: words without blanks, lines of such words, and numbers in decimal digits. The definitions (`specs/Plain.antt`), and the lemmas (`proofs/`) that the crates above cite. It has no code.
#![tactic(auto)]
