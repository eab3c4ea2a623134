//! The grammar of job files and their faults, and that the reading is both, as the contracts of functions without a body.
#![tactic(auto)]

ghost use Rattle.job_reading_laws.specs.Accepted.{ReadIsAccepted};
ghost use Rattle.job_reading_laws.specs.Told.{GrammarIsRead, LeastIsTold, DescribesOrFails};

/// Each job file that is read is an accepted one.
pub fn read_is_accepted()
    ensures { ReadIsAccepted }
{}

/// A job file is read exactly where it is one of the grammar, and as what it describes.
pub fn grammar_is_read()
    ensures { GrammarIsRead }
{}

/// The fault that is told of a job file is its least one, and the least one is told.
pub fn least_is_told()
    ensures { LeastIsTold }
{}

/// Either a job file describes one file of jobs and has no fault, or it has one least fault and describes none.
pub fn file_describes_or_fails()
    ensures { DescribesOrFails }
{}
