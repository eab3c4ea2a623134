// The nodes of a file are served by threads, and the history and its turns are written.
ghost use Rattle.std.specs.Prelude.{◌≡◌, ◌≤◌, All, IfOk, length};
ghost use Rattle.byte_ends.specs.declared.limits.TheConstants.{LONGEST_INPUT};
ghost use Rattle.unix_calls.specs.Calls.{IsEntry};
ghost use Rattle.unix_calls.specs.Valid.{IsValid};
ghost use Rattle.command_ends.specs.Ends.{HasText};
ghost use Rattle.thread_shell.specs.Served.{served_text, WritesServed, RunsByThreads};

use byte_ends::Hold;
use cluster_core::Played;
use command_ends::{Answer, Status};
use given_files::{fault_answer, read_runnable};
use histories::put_history;
use node_workers::serve;
use run_text::put_schedule;
use script_words::ReadRefusal;
use std::alloc::Global;
use std::sync::Wait;
use std::thread::Threads;
use unix_calls::World;
use unix_names::NoMemory;

/// What the nodes of an input did, each served by so many threads at most, or the least fault of the input. Its schedule is checked and not used.
pub fn served_answer<R: Threads + Wait + Sync, H: Hold + Sync>(
    rt: &R,
    alloc: Global,
    workers: u32,
    hold: &H,
    input: &[u8],
) -> Result<Answer, NoMemory>
    requires { length input.now ≤ LONGEST_INPUT }
    ensures has_text { IfOk result (λ a. HasText a.status) }
    ensures text { IfOk result (λ a. RunsByThreads a.status input.now a.text.items) }
{
    match read_runnable(alloc, input) {
        Err(ReadRefusal::NoMemory) => Err(NoMemory),
        Err(ReadRefusal::Bad(fault)) => fault_answer(alloc, &fault),
        Ok(given) => {
            let text = run_text(rt, alloc, workers, hold, &given.world)?;
            Ok(Answer {
                status: Status::Done,
                text,
            })
        }
    }
}

// What the nodes of a world did, as text.
fn run_text<R: Threads + Wait + Sync, H: Hold + Sync>(
    rt: &R,
    alloc: Global,
    workers: u32,
    hold: &H,
    world: &World,
) -> Result<Vec<u8>, NoMemory>
    requires { IsValid world.now }
    ensures { IfOk result (λ text. WritesServed world.now text.items) }
{
    let played = serve(rt, alloc, world, workers, hold)?;
    served_text(alloc, &played)
}

// The history of what was played, and its turns as a schedule behind it.
fn served_text(alloc: Global, played: &Played) -> Result<Vec<u8>, NoMemory>
    requires { All IsEntry played.now.entries.items }
    ensures { IfOk result (λ text. text.items ≡ served_text played.now.entries.items played.now.is_quiet played.now.steps.items) }
{
    let mut text = put_history(alloc, &played.entries, played.is_quiet)?;
    let turns = put_schedule(alloc, &played.steps)?;
    text.extend_from_slice("schedule\n".as_bytes())?;
    text.extend_from_slice(&turns)?;
    Ok(text)
}
