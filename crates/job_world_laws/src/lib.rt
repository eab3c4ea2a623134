//! What is true of the worlds that job files become, as the contracts of functions without a body.
#![tactic(auto)]

ghost use Rattle.job_world_laws.specs.Worlds.{AcceptedIsValid, AcceptedIsWritable, CompiledIsFile, CompiledIsRead, CompiledIsOnePart, CompiledIsShort, JobFilesMean};

/// The world of each accepted job file can be run, and is one that files describe.
pub fn accepted_is_writable()
    ensures valid { AcceptedIsValid }
    ensures writable { AcceptedIsWritable }
{}

/// The text of that world is a file of the grammar, with no schedule and no history and no longer than an input may be, and is read back as the world.
pub fn compiled_is_read()
    ensures grammar { CompiledIsFile }
    ensures read { CompiledIsRead }
    ensures one { CompiledIsOnePart }
    ensures short { CompiledIsShort }
{}

/// Each legal history that follows the scripts of a job file's world means what the file says.
pub fn job_files_mean()
    ensures { JobFilesMean }
{}
