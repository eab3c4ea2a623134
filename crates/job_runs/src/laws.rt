// What is so of the texts of `jobs` by the definitions alone.
ghost use Rattle.command_ends.specs.Laws.{HasOneAnswer};
ghost use Rattle.job_runs.specs.Jobs.{RunsJobs};

/// `jobs` has one answer to each input.
pub fn jobs_is_one()
    ensures { HasOneAnswer RunsJobs }
{}
