// A file is run by its schedule, and its history written.
ghost use Rattle.std.specs.Prelude.{◌≡◌, ◌≤◌, IfOk, length};
ghost use Rattle.byte_ends.specs.declared.limits.TheConstants.{LONGEST_INPUT};
ghost use Rattle.unix_calls.specs.Valid.{IsValid};
ghost use Rattle.command_ends.specs.Ends.{HasText};
ghost use Rattle.run_shell.specs.Replay.{written, WritesRun, ReplaysAs};
ghost use Rattle.run_shell.specs.MethodRuns.{CanBeWritten};

use audit_core::stamp;
use cluster_core::{Played, run};
use command_ends::{Answer, Reader, Status};
use given_files::{fault_answer, read_runnable};
use histories::{put_history, put_history_two};
use script_words::ReadRefusal;
use std::alloc::Global;
use unix_calls::{Turn, World};
use unix_names::NoMemory;
use unix_ops::UnixOps;

/// How a history is written.
#[derive(Clone, Copy, Debug, PartialEq, Eq)]
pub enum Format {
    /// A line for each entry.
    One,
    /// Each line behind the number of its turn and the user of its process.
    Two,
}

/// `replay`: a file is run, and its history is written.
#[derive(Clone, Copy, Debug)]
pub struct Replay;

/// `replay 2`: a file is run, and its history is written in format 2.
#[derive(Clone, Copy, Debug)]
pub struct ReplayTwo;

impl Reader for Replay {
    ghost use Rattle.run_shell.specs.Replay.{Replays};

    ghost says = { λ self. Replays };

    fn answer(&self, alloc: Global, input: &[u8]) -> Result<Answer, NoMemory> {
        answer_as(alloc, Format::One, input)
    }
}

impl Reader for ReplayTwo {
    ghost use Rattle.run_shell.specs.Replay.{ReplaysTwo};

    ghost says = { λ self. ReplaysTwo };

    fn answer(&self, alloc: Global, input: &[u8]) -> Result<Answer, NoMemory> {
        answer_as(alloc, Format::Two, input)
    }
}

// The history of an input that is run, or its least fault.
fn answer_as(alloc: Global, format: Format, input: &[u8]) -> Result<Answer, NoMemory>
    requires { length input.now ≤ LONGEST_INPUT }
    ensures has_text { IfOk result (λ a. HasText a.status) }
    ensures text { IfOk result (λ a. ReplaysAs format a.status input.now a.text.items) }
{
    match read_runnable(alloc, input) {
        Err(ReadRefusal::NoMemory) => Err(NoMemory),
        Err(ReadRefusal::Bad(fault)) => fault_answer(alloc, &fault),
        Ok(given) => {
            let text = run_text(alloc, format, &given.world, given.turns.as_slice())?;
            Ok(Answer {
                status: Status::Done,
                text,
            })
        }
    }
}

// The history of a schedule's run, as text.
fn run_text(
    alloc: Global,
    format: Format,
    world: &World,
    schedule: &[Turn],
) -> Result<Vec<u8>, NoMemory>
    requires { IsValid world.now }
    ensures { IfOk result (λ text. WritesRun format world.now schedule.now text.items) }
{
    let played = run(alloc, UnixOps, world, schedule)?;
    history_text(alloc, format, world, played)
}

// The history of what was played, as text. What the text does not need is let go before it is written, since both grow with
// the turns.
fn history_text(
    alloc: Global,
    format: Format,
    world: &World,
    played: Played,
) -> Result<Vec<u8>, NoMemory>
    requires { CanBeWritten world.now played }
    ensures { IfOk result (λ text. text.items ≡ written format world.now played.entries.items played.numbers.items played.is_quiet) }
{
    let Played {
        entries,
        numbers,
        steps,
        is_quiet,
    } = played;
    drop(steps);
    match format {
        Format::One => {
            drop(numbers);
            put_history(alloc, &entries, is_quiet)
        }
        Format::Two => {
            let stamped = stamp(alloc, world, &entries, &numbers)?;
            drop(entries);
            drop(numbers);
            put_history_two(alloc, &stamped, is_quiet)
        }
    }
}
