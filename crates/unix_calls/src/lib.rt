//! What a process asks and is answered, what a history says of it, and the world that a file describes.
#![tactic(auto)]

mod calls;
mod limits;
mod turns;
mod valid;
mod work;
mod world;

pub use calls::{Call, Entry, Event, Reply, Selector, Target, selector_of, target_of};
pub use limits::{
    MOST_NODES, MOST_PROCESSES, MOST_SCRIPTS, MOST_STARTS, MOST_STATEMENTS, MOST_TURNS, MOST_WORK,
    WORK_STOP,
};
pub use turns::{Job, Phase, Turn};
pub use valid::start_pid;
pub use work::{Work, fill_works, script_work, total_work, work_of};
pub use world::{Arg, Script, Start, Statement, World};
