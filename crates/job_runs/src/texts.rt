// The text of a run of jobs: a line for each job that was waited for.
ghost use Rattle.std.specs.Prelude.{◌≡◌, ◌<◌, ◌+◌, ◌^◌, ◌++◌, ◌∷◌, [], map, length, IfOk, OnOk};
ghost use Rattle.std.specs.String.{string_bytes};
ghost use Rattle.histories.specs.History.{last_line};
ghost use Rattle.script_words.specs.Writing.{spaced};
ghost use Rattle.job_shell.specs.MethodSizes.{IsSmall};
ghost use Rattle.job_runs.specs.Jobs as spec;

use crate::reports::reported_status;
use histories::put_status;
use job_plans::{JobFile, JobLine, Stage};
use job_shell::{first_of, stages_of};
use script_words::word_at;
use std::alloc::{AllocError, Global};
use unix_calls::Entry;
use unix_names::{NoMemory, WaitStatus};

/// How the stages of each job that was waited for ended in a history, and whether nothing was left to do.
pub fn jobs_text(
    alloc: Global,
    names: &[&[u8]],
    file: &JobFile,
    history: &[Entry],
    is_quiet: bool,
) -> Result<Vec<u8>, NoMemory>
    requires { IsSmall file.now }
    ensures { IfOk result (λ text. text.items ≡ spec.jobs_text (map (λ w. w.now) names.now) file.now history.now is_quiet) }
{
    let mut text = Vec::new(alloc);
    for line in file.lines.as_slice() {
        put_line(alloc, &mut text, names, file, history, *line)?;
    }
    text.extend_from_slice(last_line(is_quiet))?;
    Ok(text)
}

fn last_line(is_quiet: bool) -> &'static [u8]
    ensures { result.now ≡ last_line is_quiet }
{
    if is_quiet { b"quiet\n" } else { b"open\n" }
}

// Puts what is said of a line of the shell at the end of a text: nothing, unless the line waits for its job.
fn put_line(
    alloc: Global,
    text: &mut Vec<u8>,
    names: &[&[u8]],
    file: &JobFile,
    history: &[Entry],
    line: JobLine,
) -> Result<(), NoMemory>
    requires { IsSmall file.now }
    ensures { OnOk result (text.new.items ≡ text.old.items ++ spec.line_text (map (λ w. w.now) names.now) file.now history.now line) }
{
    match line {
        JobLine::Run(job) | JobLine::Bring(job) => put_job(
            alloc,
            text,
            word_at(names, job),
            file,
            history,
            job,
        ),
        JobLine::Start(_) | JobLine::Stop(_) | JobLine::End(_) => Ok(()),
    }
}

// Puts the line of a job at the end of a text: its name, and how each of its stages ended.
fn put_job(
    alloc: Global,
    text: &mut Vec<u8>,
    name: &[u8],
    file: &JobFile,
    history: &[Entry],
    job: usize,
) -> Result<(), NoMemory>
    requires { IsSmall file.now }
    ensures { OnOk result (text.new.items ≡ text.old.items ++ spec.job_text name.now file.now history.now job) }
{
    let ends = ends_text(alloc, history, first_of(file, job), stages_of(file, job))?;
    text.extend_from_slice(name)?;
    text.extend_from_slice(ends.as_bytes())?;
    text.push(b'\n')?;
    Ok(())
}

// How these stages ended, each behind a space, where they were forked one after the other from a number on.
fn ends_text(
    alloc: Global,
    history: &[Entry],
    first: usize,
    stages: &[Stage],
) -> Result<String, NoMemory>
    requires { first + length stages.now < 2 ^ 63 }
    ensures { IfOk result (λ text. string_bytes text ≡ spaced (spec.ends_from history.now first stages.now)) }
{
    let mut text = String::new(alloc);
    for (k, _stage) in stages.iter().enumerate() {
        let status = reported_status(alloc, history, first + k)?;
        put_end(&mut text, status)?;
    }
    Ok(text)
}

// Puts how a stage ended behind a space at the end of a text, or a dash where no end was reported.
fn put_end(text: &mut String, status: Option<WaitStatus>) -> Result<(), AllocError>
    ensures { OnOk result (string_bytes text.new ≡ string_bytes text.old ++ spaced (spec.end_words status)) }
{
    match status {
        None => text.push_str(" -"),
        Some(status) => put_status(text, status),
    }
}
