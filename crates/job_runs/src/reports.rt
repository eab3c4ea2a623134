// Which end of a stage a history reports to the shell.
ghost use Rattle.std.specs.Prelude.{◌≡◌, ◌==◌, reverse, IfOk, OnOk};
ghost use Rattle.std.specs.List.{filter};
ghost use Rattle.job_laws.specs.Forks.{stage_in, with_fork};
ghost use Rattle.job_laws.specs.Reports.{reported, reports_of, is_end_status};
ghost use Rattle.job_runs.specs.Jobs.{status_of};

use std::alloc::Global;
use unix_calls::{Call, Entry, Reply};
use unix_names::{NoMemory, Pid, WaitStatus};

// The first process of node 0.
const SHELL: Pid = Pid(2);

/// The status that a history reports to the shell of a stage, which goes by the number of its fork. None exactly where no end of it is reported.
///
/// # Errors
/// `NoMemory` where memory runs out.
pub fn reported_status(
    alloc: Global,
    history: &[Entry],
    stage: usize,
) -> Result<Option<WaitStatus>, NoMemory>
    ensures { IfOk result (λ status. status ≡ status_of (reports_of stage history.now)) }
{
    let mut forks = Vec::new(alloc);
    for entry in history {
        if let Some(status) = status_in(&forks, stage, entry) {
            return Ok(Some(status));
        }
        note_fork(&mut forks, entry)?;
    }
    Ok(None)
}

// Takes what a fork of the shell answered.
fn note_fork(forks: &mut Vec<u32>, entry: &Entry) -> Result<(), NoMemory>
    ensures { OnOk result (reverse forks.new.items ≡ with_fork (reverse forks.old.items) entry.now) }
{
    match *entry {
        Entry::Called {
            caller,
            call: Call::Fork,
            reply: Reply::Number(number),
        } if caller == SHELL => forks.push(number)?,
        _ => {}
    }
    Ok(())
}

// The status with which an entry reports the end of a stage to the shell, behind these forks.
fn status_in(forks: &[u32], stage: usize, entry: &Entry) -> Option<WaitStatus>
    ensures { result ≡ status_of (filter (λ r. r.stage == stage) (reported (reverse forks.now) entry.now)) }
{
    match *entry {
        Entry::Called {
            caller,
            call: Call::Waitpid { .. },
            reply: Reply::Child(child, status),
        } if caller == SHELL && is_end(status) && stage_of(forks, child.0) == Some(stage) => {
            Some(status)
        }
        _ => None,
    }
}

fn is_end(status: WaitStatus) -> bool
    ensures { result ≡ is_end_status status }
{
    match status {
        WaitStatus::Exited(_) | WaitStatus::Killed(_) => true,
        WaitStatus::Stopped(_) | WaitStatus::Continued => false,
    }
}

// The stage that has a pid: the last that was forked as such.
fn stage_of(forks: &[u32], pid: u32) -> Option<usize>
    ensures { result ≡ stage_in (reverse forks.now) pid }
{
    let mut stage = None;
    for (k, fork) in forks.iter().enumerate() {
        if *fork == pid {
            stage = Some(k);
        }
    }
    stage
}
