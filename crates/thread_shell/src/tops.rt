// The call that serves the nodes of a file by threads: from a source to a sink and a status.
ghost use Rattle.std.specs.Prelude.{◌≢◌};
ghost use Rattle.command_ends.specs.Ends.{IsAnswered};
ghost use Rattle.thread_shell.specs.Served.{RunsByThreads};

use crate::served::served_answer;
use byte_ends::{Hold, Sink, Source};
use command_ends::{Status, put, read_input};
use std::alloc::Global;
use std::sync::Wait;
use std::thread::Threads;

/// Reads a file, serves each of its nodes by so many threads at most, and writes the history and the turns that were done. The file's own schedule is checked and not used.
pub fn run_top<R: Threads + Wait + Sync, S: Source, K: Sink, H: Hold + Sync>(
    rt: &R,
    alloc: Global,
    workers: u32,
    source: &mut S,
    sink: &mut K,
    hold: &H,
) -> Status
    ensures command { result ≢ Status.BadWords }
    ensures answered { IsAnswered S.left S.faults K.taken K.faults RunsByThreads source.old source.new sink.old sink.new result }
{
    match read_input(alloc, source) {
        Err(status) => status,
        Ok(input) => match served_answer(rt, alloc, workers, hold, &input) {
            Err(_) => Status::NoMemory,
            Ok(answer) => put(sink, &answer.text, answer.status),
        },
    }
}
