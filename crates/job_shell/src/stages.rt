// The stages that are started, in order of their forks, and the scripts that they run.
ghost use Rattle.std.specs.Prelude.{◌≡◌, ◌≤◌, ◌*◌, ◌==◌, length, IfOk, OnOk};
ghost use Rattle.std.specs.List.{list_any};
ghost use Rattle.job_plans.specs.Files.{stages_of};
ghost use Rattle.job_plans.specs.Plans as spec;
ghost use Rattle.job_plans.specs.declared.limits.TheConstants.{MOST_STAGES};
ghost use Rattle.job_shell.specs.MethodSizes.{IsSmall};

use job_plans::{JobFile, JobLine, Stage};
use std::alloc::Global;
use unix_names::NoMemory;

/// The stages of a job, none where there is no such job.
pub fn stages_of(file: &JobFile, job: usize) -> &[Stage]
    ensures { result.now ≡ stages_of file.now.jobs job }
{
    match file.jobs.as_slice().get(job) {
        None => &[],
        Some(job) => job.stages.as_slice(),
    }
}

// The stages that a line starts.
fn stages_started(file: &JobFile, line: JobLine) -> &[Stage]
    ensures { result.now ≡ spec.stages_started file.now.jobs line }
{
    match line {
        JobLine::Run(job) | JobLine::Start(job) => stages_of(file, job),
        JobLine::Stop(_) | JobLine::End(_) | JobLine::Bring(_) => &[],
    }
}

/// All stages that are started, in order of their forks.
pub fn stages_in_all(alloc: Global, file: &JobFile) -> Result<Vec<Stage>, NoMemory>
    ensures { IfOk result (λ stages. stages.items ≡ spec.stages_in_all file.now) }
{
    let mut stages = Vec::new(alloc);
    for line in file.lines.as_slice() {
        stages.extend_from_slice(stages_started(file, *line))?;
    }
    Ok(stages)
}

// Whether a line starts a job.
fn starts(job: usize, line: JobLine) -> bool
    ensures { result ≡ spec.starts job line }
{
    match line {
        JobLine::Run(other) | JobLine::Start(other) => other == job,
        JobLine::Stop(_) | JobLine::End(_) | JobLine::Bring(_) => false,
    }
}

/// The number of a job's first stage.
pub fn first_of(file: &JobFile, job: usize) -> usize
    requires { IsSmall file.now }
    ensures value { result ≡ spec.first_of file.now job }
    ensures few { result ≤ MOST_STAGES * length file.now.lines }
{
    let mut first = 0;
    for line in file.lines.as_slice() {
        if starts(job, *line) {
            return first;
        }
        first += stages_started(file, *line).len();
    }
    first
}

fn is_among(statuses: &[u8], status: u8) -> bool
    ensures { result ≡ list_any (λ e. e == status) statuses.now }
{
    statuses.iter().any(|e| *e == status)
}

// Takes the status of one stage more, unless it is there.
fn note(statuses: &mut Vec<u8>, stage: Stage) -> Result<(), NoMemory>
    ensures { OnOk result (statuses.new.items ≡ spec.with_status statuses.old.items stage) }
{
    if !is_among(statuses, stage.status) {
        statuses.push(stage.status)?;
    }
    Ok(())
}

/// Each status of some stages once, in order of the first that ends with it.
pub fn statuses_of(alloc: Global, stages: &[Stage]) -> Result<Vec<u8>, NoMemory>
    ensures { IfOk result (λ statuses. statuses.items ≡ spec.statuses_of stages.now) }
{
    let mut statuses = Vec::new(alloc);
    for stage in stages {
        note(&mut statuses, *stage)?;
    }
    Ok(statuses)
}

/// The place of a status among some.
pub fn place_of(status: u8, statuses: &[u8]) -> usize
    ensures { result ≡ spec.place_of status statuses.now }
{
    let mut place = 0;
    for e in statuses {
        if *e == status {
            return place;
        }
        place += 1;
    }
    place
}
