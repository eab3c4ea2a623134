//! The tests of the records of processes and groups, of what travels with a courier, and of where records are at home.
#![tactic(auto)]

#[cfg(test)]
mod bags;
#[cfg(test)]
mod couriers;
#[cfg(test)]
mod groups;
#[cfg(test)]
mod homes;
#[cfg(test)]
mod orphans;
#[cfg(test)]
mod processes;
#[cfg(test)]
mod streams;
