//! The tests of the one kernel, of what is chosen where it leaves a choice, and of the judge.
#![tactic(auto)]

#[cfg(test)]
mod choices;
#[cfg(test)]
mod judgements;
#[cfg(test)]
mod steps;
