//! The homes of records: each record rests at its home or is out, with a line of those who wait for it.
#![tactic(auto)]

mod slot;
mod slots;

pub use slot::{Line, Slot};
pub use slots::{Nudged, PutBack, Slots, Taken};
