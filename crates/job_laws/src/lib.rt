//! What job files mean in the legal histories of their scripts, as the contracts of functions without a body.
#![tactic(auto)]

ghost use Rattle.job_laws.specs.Theorem.{PlansMean, AcceptedArePlans, FilesMean};

/// Each legal history that follows the scripts of an orderly plan's world means what the plan says.
pub fn plans_mean()
    ensures { PlansMean }
{}

/// The plan of each accepted job file is orderly, and its stages get the scripts of their statuses.
pub fn accepted_are_plans()
    ensures { AcceptedArePlans }
{}

/// Each legal history that follows the scripts of an accepted job file's world means what the file says.
pub fn files_mean()
    ensures { FilesMean }
{}
