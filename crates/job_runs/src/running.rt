// A job file is run.
ghost use Rattle.std.specs.Prelude.{◌≡◌, ◌≢◌, IfOk};
ghost use Rattle.command_ends.specs.Ends.{IsAnswered};
ghost use Rattle.byte_ends.specs.Text.{lines};
ghost use Rattle.job_files.specs.MethodReading.{read_lines};
ghost use Rattle.job_shell.specs.MethodSizes.{IsSmall};
ghost use Rattle.job_runs.specs.Jobs.{RunsFile, RunsJobs};

use crate::names::job_names;
use crate::texts::jobs_text;
use byte_ends::{Sink, Source};
use cluster_core::run;
use command_ends::{Answer, Reader, Status, read_and_answer};
use job_commands::fault_answer;
use job_files::{JobRefusal, read_jobs};
use job_plans::JobFile;
use job_shell::world_of;
use std::alloc::Global;
use unix_calls::{MOST_TURNS, Turn};
use unix_names::NoMemory;
use unix_ops::UnixOps;

/// The command that runs a job file, and writes how the stages ended that were waited for.
#[derive(Clone, Copy, Debug)]
pub struct Jobs;

impl Reader for Jobs {
    ghost use Rattle.job_runs.specs.Jobs.{RunsJobs};

    ghost says = { λ _. RunsJobs };

    #[tactic(auto, using(crate::proofs::Runs::is_refused))]
    fn answer(&self, alloc: Global, input: &[u8]) -> Result<Answer, NoMemory> {
        match read_jobs(alloc, input) {
            Err(JobRefusal::NoMemory) => Err(NoMemory),
            Err(JobRefusal::Bad(fault)) => fault_answer(alloc, &fault),
            Ok(file) => Ok(Answer {
                status: Status::Done,
                text: run_text(alloc, input, &file)?,
            }),
        }
    }
}

// What is said of the run of an input's file.
fn run_text(alloc: Global, input: &[u8], file: &JobFile) -> Result<Vec<u8>, NoMemory>
    requires small { IsSmall file.now }
    requires read { read_lines (lines input.now) ≡ Ok file.now }
    ensures { IfOk result (λ text. RunsFile input.now text.items) }
{
    let names = job_names(alloc, input)?;
    let world = world_of(alloc, file)?;
    let turns = [Turn::Auto(MOST_TURNS)];
    let played = run(alloc, UnixOps, &world, &turns)?;
    jobs_text(alloc, &names, file, &played.entries, played.is_quiet)
}

/// Reads a job file, runs it on its nodes, and writes for each job that was waited for how its stages ended, and whether nothing was left to do; or the least fault of the file.
pub fn jobs_top<S: Source, K: Sink>(alloc: Global, source: &mut S, sink: &mut K) -> Status
    ensures command { result ≢ Status.BadWords }
    ensures answered { IsAnswered S.left S.faults K.taken K.faults RunsJobs source.old source.new sink.old sink.new result }
{
    read_and_answer(alloc, &Jobs, source, sink)
}
