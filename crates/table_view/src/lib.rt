//! What a reader of a history asks of the one kernel: its table after some entries, and the ground of a reply.
#![tactic(auto)]

ghost use Rattle.table_view.specs.Grounds.{AreRefusals};

mod grounds;
mod lines;
mod table;

pub use grounds::{Ground, ground_of};
pub use lines::put_table;
pub use table::table_after;

/// The cases that are counted are the kernel's own: the first that holds is the call's refusal, and none holds where it is not refused.
pub fn refusals_are_the_kernels()
    ensures { AreRefusals }
{}
