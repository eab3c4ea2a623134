//! The words of files and histories: what a word says by itself, the words that are written, and what can be wrong with a line.
#![tactic(auto)]

mod faults;
mod limits;
mod table;
mod words;
mod writing;

pub use faults::{Fault, Kind, ReadRefusal, bad};
pub use limits::LONGEST_NAME;
pub use table::{
    Verb, act_named, act_word, changes_in, errno_named, errno_word, verb_named, verb_word,
};
pub use words::{
    ended, is_minus_digits, is_skipped, is_utf8, is_word, name, node, number, signal,
    signal_number, word_at,
};
pub use writing::{put_changes, put_members, put_number, put_signal, put_word};
