//! Tests of decisions that cross the parts: each on hand-written records, with what is left told from the rules.
#![tactic(auto)]

#[cfg(test)]
mod endings;
#[cfg(test)]
mod families;
#[cfg(test)]
mod family;
#[cfg(test)]
mod forks;
#[cfg(test)]
mod sendings;
#[cfg(test)]
mod turns;
#[cfg(test)]
mod vectors;
#[cfg(test)]
mod waits;
