//! The judge of histories: whether each entry is legal for the one kernel, and each call its process's next statement.
#![tactic(auto)]

ghost use Rattle.audit_core.specs.Laws.{HasOneJudgement, HasOneJudgementTwo};

mod judge;
mod scripts;
mod stamps;
mod told;

pub use judge::{Breach, Judged, audit};
pub use stamps::{JudgedTwo, audit_two, stamp};

/// A history has one judgement: it isn't legal and illegal too, and no two entries are the first illegal one, nor two rules the first that it breaks.
pub fn judgements_are_single()
    ensures { HasOneJudgement }
{}

/// A history of format 2 has one judgement.
pub fn stamped_judgements_are_single()
    ensures { HasOneJudgementTwo }
{}
