//! The tests of texts: the ends that bytes come from and go to, files, schedules, histories and made files.
#![tactic(auto)]

#[cfg(test)]
mod ends;
#[cfg(test)]
mod history_texts;
#[cfg(test)]
mod loads;
#[cfg(test)]
mod parts;
#[cfg(test)]
mod reading;
#[cfg(test)]
mod schedules;
#[cfg(test)]
mod words;
#[cfg(test)]
mod writing;
