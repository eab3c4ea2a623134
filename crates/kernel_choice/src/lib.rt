//! What the program chooses where the rules of the kernel leave a choice: the event that happens first, and the reply of a call.
#![tactic(auto)]

mod events;
mod laws;
mod replies;

pub use events::{first_event, first_event_of};
pub use laws::{chosen_event, chosen_reply};
pub use replies::reply_of;
