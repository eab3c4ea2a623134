//! The tests of names, signals, worlds, process images, and of the tables that are made of them.
#![tactic(auto)]

#[cfg(test)]
mod images;
#[cfg(test)]
mod names;
#[cfg(test)]
mod signals;
#[cfg(test)]
mod tables;
#[cfg(test)]
mod worlds;
