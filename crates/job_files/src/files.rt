// Whole job files.
ghost use Rattle.std.specs.Prelude.{◌≡◌, ◌<◌, ◌≤◌, ◌+◌, ◌^◌, ◌++◌, ◌∷◌, [], Ok, Err, length, map, slice_range, IfOk, OnOk, All, List, ℕ};
ghost use Rattle.std.specs.List.{list_any};
ghost use Rattle.byte_ends.specs.Text.{lines as lines_in};
ghost use Rattle.job_files.specs.declared.faults.JobFault.{JobFault as Fault};
ghost use Rattle.job_files.specs.Kinds.{fault_at};
ghost use Rattle.job_files.specs.MethodReading as spec;
ghost use Rattle.job_files.specs.MethodBounds.{HasFew, IsBounded, KeepsBounds};

use crate::drafts::{Draft, Item};
use crate::faults::{JobFault, JobKind, JobRefusal};
use crate::names::Names;
use crate::rows::{line_says, step_count};
use byte_ends::{next_line, take_words};
use job_plans::JobFile;
use script_words::{is_skipped, is_utf8, word_at};
use std::alloc::Global;
use unix_names::{NoMemory, Seq};

impl<'a> Draft<'a> {
    // Before the first line.
    fn new(alloc: Global) -> Draft<'a>
        ensures { result ≡ spec.first_draft }
    {
        Draft {
            begun: false,
            nodes: 0,
            names: Names::new(alloc),
            jobs: Seq::new(alloc),
            lines: Seq::new(alloc),
            stages: 0,
            steps: 0,
        }
    }

    // Takes what the next line says, whose words these are.
    fn take(&mut self, words: &[&'a [u8]], item: Item) -> Result<(), NoMemory>
        requires bounded { IsBounded self.old }
        requires keeps { KeepsBounds self.old item }
        ensures draft { OnOk result (self.new ≡ spec.with_item self.old (map (λ w. w.now) words.now) item) }
        ensures lines { OnOk result (length self.new.lines ≤ length self.old.lines + 1) }
    {
        match item {
            Item::Nothing => {}
            Item::Nodes(nodes) => {
                self.begun = true;
                self.nodes = nodes;
            }
            Item::Job(job) => {
                self.stages += job.stages.len();
                self.names.push(word_at(words, 1))?;
                self.jobs.push(job)?;
            }
            Item::Tells(line) => {
                self.steps += step_count(self.jobs.as_slice(), line);
                self.lines.push(line)?;
            }
        }
        Ok(())
    }

    fn finish(self) -> JobFile
        ensures { result ≡ spec.file_of self.entry }
    {
        let Draft {
            begun: _,
            nodes,
            names: _,
            jobs,
            lines,
            stages: _,
            steps: _,
        } = self;
        JobFile { nodes, jobs, lines }
    }
}

/// What a job file describes, or its least fault.
///
/// # Errors
/// `Bad` with the least line that has a fault, counted from 1, and its first fault; `NoMemory` where memory runs out.
pub fn read_jobs(alloc: Global, bytes: &[u8]) -> Result<JobFile, JobRefusal>
    requires { length bytes.now < 2 ^ 31 }
    ensures file { IfOk result (λ f. spec.read_lines (lines_in bytes.now) ≡ Ok f) }
    ensures bad { (fault : Fault) → result ≡ Err (JobRefusal.Bad fault) → spec.read_lines (lines_in bytes.now) ≡ Err fault }
    ensures few { IfOk result (λ f. All HasFew f.jobs) }
    ensures short { IfOk result (λ f. length f.lines < 2 ^ 31) }
{
    if says_something(alloc, bytes)? {
        read_said(alloc, bytes)
    } else {
        let kind = silent_kind(bytes);
        Err(bad(1, kind))
    }
}

fn bad(line: u32, kind: JobKind) -> JobRefusal
    ensures { result ≡ JobRefusal.Bad (fault_at line kind) }
{
    JobRefusal::Bad(JobFault { line, kind })
}

// Whether a line says something.
fn says_something(alloc: Global, text: &[u8]) -> Result<bool, NoMemory>
    ensures { IfOk result (λ some. some ≡ list_any spec.says_something (lines_in text.now)) }
{
    let mut words = Vec::new(alloc);
    let mut at = 0;
    while let Some((from, to, next)) = next_line(text, at) {
        take_words(&mut words, &text[from..to])?;
        if !is_skipped(&words) {
            return Ok(true);
        }
        at = next;
    }
    Ok(false)
}

// What is wrong with a file in which no line says anything.
fn silent_kind(text: &[u8]) -> JobKind
    ensures { result ≡ spec.silent_kind (lines_in text.now) }
{
    match next_line(text, 0) {
        None => JobKind::NoClusterLine,
        Some((from, to, _)) => {
            if is_utf8(&text[from..to]) {
                JobKind::NoClusterLine
            } else {
                JobKind::NotUtf8
            }
        }
    }
}

// Reads each line once, up to the first that has a fault.
fn read_said(alloc: Global, text: &[u8]) -> Result<JobFile, JobRefusal>
    requires { length text.now < 2 ^ 31 }
    ensures file { IfOk result (λ f. spec.read_from spec.first_draft 1 (lines_in text.now) ≡ Ok f) }
    ensures bad { (fault : Fault) → result ≡ Err (JobRefusal.Bad fault) → spec.read_from spec.first_draft 1 (lines_in text.now) ≡ Err fault }
    ensures few { IfOk result (λ f. All HasFew f.jobs) }
    ensures short { IfOk result (λ f. length f.lines < 2 ^ 31) }
{
    let mut draft = Draft::new(alloc);
    let mut number = 1;
    let mut words = Vec::new(alloc);
    let mut at = 0;
    while let Some((from, to, next)) = next_line(text, at) {
        let line = &text[from..to];
        take_words(&mut words, line)?;
        match line_says(alloc, &draft, line, &words)? {
            Err(kind) => return Err(bad(number, kind)),
            Ok(item) => draft.take(&words, item)?,
        }
        number += 1;
        at = next;
    }
    Ok(draft.finish())
}
