//! The rules of the one kernel: over a table of processes, what each call may answer and what it changes, and what may happen to a process.
#![tactic(auto)]

mod action;
mod calls;
mod ending;
mod events;
mod exec;
mod exit;
mod fork;
mod kill;
mod look;
mod mask;
mod orphans;
mod permission;
mod replies;
mod setpgid;
mod setsid;
mod wait;

pub use calls::{allows, call, refusal};
pub use events::{
    can_call, happen, has_terminal_stop, is_caught, is_discarded, look_up, may_happen, stops,
};
pub use fork::is_fresh;
pub use kill::is_permitted;
pub use orphans::groups_at_risk;
pub use setpgid::{target_pid, wanted_group};
pub use wait::{has_ready_match, is_match, is_ready_match, report_of};
