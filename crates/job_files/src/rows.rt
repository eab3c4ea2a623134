// What a line says behind the lines before it, or its first fault.
ghost use Rattle.std.specs.Prelude.{◌≡◌, ◌+◌, ◌*◌, ◌<◌, ◌≤◌, map, length, IfOk, All};
ghost use Rattle.byte_ends.specs.Text.{words as words_in};
ghost use Rattle.job_plans.specs.declared.limits.TheConstants.{MOST_STAGES, MOST_STAGES_IN_ALL};
ghost use Rattle.unix_calls.specs.declared.limits.TheConstants.{MOST_STATEMENTS};
ghost use Rattle.job_plans.specs.Files.{stages_of, job_of};
ghost use Rattle.job_files.specs.MethodReading as spec;
ghost use Rattle.job_files.specs.MethodBounds.{HasFew, IsBounded, ReadKeeps};
ghost use Rattle.job_files.specs.declared.drafts.Draft.{Draft as AnyDraft};

use crate::drafts::{Draft, Item};
use crate::faults::JobKind;
use crate::names::Names;
use crate::stages::stages;
use job_plans::{Job, JobLine, MOST_STAGES, MOST_STAGES_IN_ALL, Phase, Stage};
use script_words::{Kind, is_skipped, is_utf8, is_word, name, number};
use std::alloc::Global;
use unix_calls::{MOST_NODES, MOST_STATEMENTS};
use unix_names::{NoMemory, Seq};

/// What a line says, or its first fault.
pub type Read = Result<Item, JobKind>;

fn job_name(word: &[u8]) -> Result<(), JobKind>
    ensures { result ≡ spec.name word.now }
{
    match name(word) {
        Ok(()) => Ok(()),
        Err(Kind::LongName) => Err(JobKind::LongName),
        Err(_) => Err(JobKind::UnknownWord),
    }
}

fn cluster_row(words: &[&[u8]]) -> Read
    ensures value { result ≡ spec.cluster_row (map (λ w. w.now) words.now) }
    ensures keeps { (draft : AnyDraft) → ReadKeeps draft result }
{
    match words {
        [] => Err(JobKind::UnknownWord),
        [word, more @ ..] => match number(word) {
            Err(_) => Err(JobKind::BadNumber),
            Ok(n) => {
                if n < 1 || n > MOST_NODES {
                    Err(JobKind::TooManyNodes)
                } else if more.len() == 0 {
                    Ok(Item::Nodes(n))
                } else {
                    Err(JobKind::UnknownWord)
                }
            }
        },
    }
}

// A job of these stages.
fn counted(draft: &Draft<'_>, stages: Seq<Stage>) -> Read
    requires { draft.now.stages ≤ MOST_STAGES_IN_ALL }
    ensures value { result ≡ spec.counted draft.now.stages stages }
    ensures keeps { ReadKeeps draft.now result }
{
    let count = stages.len();
    if count > MOST_STAGES || draft.stages + count > MOST_STAGES_IN_ALL {
        Err(JobKind::TooManyStages)
    } else {
        Ok(Item::Job(Job { stages }))
    }
}

// A name that no job has so far.
fn new_name(names: &Names<'_>, word: &[u8]) -> Result<(), JobKind>
    ensures { result ≡ spec.new_name (spec.number_of names.now word.now) }
{
    match names.number_of(word) {
        None => Ok(()),
        Some(_) => Err(JobKind::DoubleName),
    }
}

fn fresh_name(names: &Names<'_>, word: &[u8]) -> Result<(), JobKind>
    ensures { result ≡ spec.fresh_name names.now word.now }
{
    job_name(word)?;
    new_name(names, word)
}

fn job_row(alloc: Global, draft: &Draft<'_>, words: &[&[u8]]) -> Result<Read, NoMemory>
    requires { draft.now.stages ≤ MOST_STAGES_IN_ALL }
    ensures value { IfOk result (λ read. read ≡ spec.job_row draft.now (map (λ w. w.now) words.now)) }
    ensures keeps { IfOk result (λ read. ReadKeeps draft.now read) }
{
    match words {
        [] => Ok(Err(JobKind::UnknownWord)),
        [word, more @ ..] => match fresh_name(&draft.names, word) {
            Err(kind) => Ok(Err(kind)),
            Ok(()) => job_stages(alloc, draft, more),
        },
    }
}

// The job of these stages, of which there is one at least.
fn job_stages(alloc: Global, draft: &Draft<'_>, words: &[&[u8]]) -> Result<Read, NoMemory>
    requires { draft.now.stages ≤ MOST_STAGES_IN_ALL }
    ensures value { IfOk result (λ read. read ≡ spec.job_stages draft.now (map (λ w. w.now) words.now)) }
    ensures keeps { IfOk result (λ read. ReadKeeps draft.now read) }
{
    if words.len() == 0 {
        return Ok(Err(JobKind::UnknownWord));
    }
    match stages(alloc, draft.nodes, words)? {
        Err(kind) => Ok(Err(kind)),
        Ok(stages) => Ok(counted(draft, stages)),
    }
}

// The line that begins with a word and names a job, where there is one.
fn line_named(word: &[u8], job: usize) -> Option<JobLine>
    ensures { result ≡ spec.line_named word.now job }
{
    if is_word(word, "run") {
        Some(JobLine::Run(job))
    } else if is_word(word, "start") {
        Some(JobLine::Start(job))
    } else if is_word(word, "stop") {
        Some(JobLine::Stop(job))
    } else if is_word(word, "end") {
        Some(JobLine::End(job))
    } else if is_word(word, "bring") {
        Some(JobLine::Bring(job))
    } else {
        None
    }
}

fn phase_with(job: usize, phase: Phase, line: JobLine) -> Phase
    ensures { result ≡ spec.phase_with job phase line }
{
    match line {
        JobLine::Run(j) | JobLine::Bring(j) => { if j == job { Phase::Done } else { phase } }
        JobLine::Start(j) => { if j == job { Phase::Background } else { phase } }
        JobLine::Stop(_) | JobLine::End(_) => phase,
    }
}

// How far a job is behind some lines.
fn phase_of(job: usize, lines: &[JobLine]) -> Phase
    ensures { result ≡ spec.phase_of job lines.now }
{
    let mut phase = Phase::Idle;
    for line in lines {
        phase = phase_with(job, phase, *line);
    }
    phase
}

fn job_of(line: JobLine) -> usize
    ensures { result ≡ job_of line }
{
    match line {
        JobLine::Run(job)
        | JobLine::Start(job)
        | JobLine::Stop(job)
        | JobLine::End(job)
        | JobLine::Bring(job) => job,
    }
}

// Whether a line may stand where its job is so far.
fn fits(phase: Phase, line: JobLine) -> Result<(), JobKind>
    ensures { result ≡ spec.fits phase line }
{
    match line {
        JobLine::Run(_) | JobLine::Start(_) => match phase {
            Phase::Idle => Ok(()),
            Phase::Background | Phase::Done => Err(JobKind::JobTwice),
        },
        JobLine::Stop(_) | JobLine::End(_) | JobLine::Bring(_) => match phase {
            Phase::Background => Ok(()),
            Phase::Idle | Phase::Done => Err(JobKind::NotInBackground),
        },
    }
}

// How many stages a job has.
#[tactic(auto, using(crate::proofs::Bounded::few_stages))]
fn stage_count(jobs: &[Job], job: usize) -> usize
    requires { All HasFew jobs.now }
    ensures value { result ≡ length (stages_of jobs.now job) }
    ensures few { result ≤ MOST_STAGES }
{
    match jobs.get(job) {
        None => 0,
        Some(job) => job.stages.len(),
    }
}

/// How many statements of the shell a line makes.
pub fn step_count(jobs: &[Job], line: JobLine) -> usize
    requires { All HasFew jobs.now }
    ensures value { result ≡ spec.step_count jobs.now line }
    ensures few { result ≤ 33 }
{
    match line {
        JobLine::Run(job) => 4 * stage_count(jobs, job) + 1,
        JobLine::Start(job) => 3 * stage_count(jobs, job) + 1,
        JobLine::Stop(_) => 1,
        JobLine::End(_) => 2,
        JobLine::Bring(job) => stage_count(jobs, job) + 1,
    }
}

// A line of the shell, behind which these words stand.
fn told(draft: &Draft<'_>, line: JobLine, more: usize) -> Read
    requires { IsBounded draft.now }
    ensures value { result ≡ spec.told draft.now line more }
    ensures keeps { ReadKeeps draft.now result }
{
    fits(phase_of(job_of(line), draft.lines.as_slice()), line)?;
    if more != 0 {
        Err(JobKind::UnknownWord)
    } else if draft.steps + step_count(draft.jobs.as_slice(), line) > MOST_STATEMENTS {
        Err(JobKind::TooManyStatements)
    } else {
        Ok(Item::Tells(line))
    }
}

// The number of a job that has a name.
fn known(names: &Names<'_>, word: &[u8]) -> Result<usize, JobKind>
    ensures { result ≡ spec.known (spec.number_of names.now word.now) }
{
    match names.number_of(word) {
        None => Err(JobKind::UnknownJob),
        Some(job) => Ok(job),
    }
}

fn told_row(draft: &Draft<'_>, verb: &[u8], words: &[&[u8]]) -> Read
    requires { IsBounded draft.now }
    ensures value { result ≡ spec.told_row draft.now verb.now (map (λ w. w.now) words.now) }
    ensures keeps { ReadKeeps draft.now result }
{
    match words {
        [] => Err(JobKind::UnknownWord),
        [word, more @ ..] => {
            job_name(word)?;
            let job = known(&draft.names, word)?;
            match line_named(verb, job) {
                None => Err(JobKind::UnknownWord),
                Some(line) => told(draft, line, more.len()),
            }
        }
    }
}

fn words_row(
    alloc: Global,
    draft: &Draft<'_>,
    first: &[u8],
    rest: &[&[u8]],
) -> Result<Read, NoMemory>
    requires { IsBounded draft.now }
    ensures value { IfOk result (λ read. read ≡ spec.words_row draft.now first.now (map (λ w. w.now) rest.now)) }
    ensures keeps { IfOk result (λ read. ReadKeeps draft.now read) }
{
    if !draft.begun {
        if is_word(first, "cluster") {
            Ok(cluster_row(rest))
        } else {
            Ok(Err(JobKind::NoClusterLine))
        }
    } else if is_word(first, "job") {
        job_row(alloc, draft, rest)
    } else if line_named(first, 0).is_some() {
        Ok(told_row(draft, first, rest))
    } else {
        Ok(Err(JobKind::UnknownWord))
    }
}

/// What a line of these words says, or its first wrong word.
pub fn row_says(alloc: Global, draft: &Draft<'_>, words: &[&[u8]]) -> Result<Read, NoMemory>
    requires { IsBounded draft.now }
    ensures value { IfOk result (λ read. read ≡ spec.row_says draft.now (map (λ w. w.now) words.now)) }
    ensures keeps { IfOk result (λ read. ReadKeeps draft.now read) }
{
    if is_skipped(words) {
        return Ok(Ok(Item::Nothing));
    }
    match words {
        [] => Ok(Ok(Item::Nothing)),
        [first, rest @ ..] => words_row(alloc, draft, first, rest),
    }
}

/// What a line of these words says, or its first fault.
pub fn line_says(
    alloc: Global,
    draft: &Draft<'_>,
    line: &[u8],
    words: &[&[u8]],
) -> Result<Read, NoMemory>
    requires bounded { IsBounded draft.now }
    requires words { map (λ w. w.now) words.now ≡ words_in line.now }
    ensures value { IfOk result (λ read. read ≡ spec.line_says draft.now line.now) }
    ensures keeps { IfOk result (λ read. ReadKeeps draft.now read) }
{
    if is_utf8(line) {
        row_says(alloc, draft, words)
    } else {
        Ok(Err(JobKind::NotUtf8))
    }
}
