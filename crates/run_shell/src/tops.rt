// The calls that run files: from a source, or from the numbers of a load, to a sink and a status.
ghost use Rattle.std.specs.Prelude.{◌≡◌, ◌≢◌};
ghost use Rattle.load_maker.specs.Made.{made};
ghost use Rattle.command_ends.specs.Ends.{IsAnswered, IsMade};
ghost use Rattle.run_shell.specs.Load.{IsWithin, Loads};
ghost use Rattle.run_shell.specs.Replay.{Replays, ReplaysTwo};

use crate::loads::load;
use crate::replays::{Replay, ReplayTwo};
use byte_ends::{Sink, Source};
use command_ends::{Status, put, read_and_answer};
use load_maker::make;
use std::alloc::Global;

/// Reads a file, runs its processes by its schedule, and writes the history.
pub fn replay_top<S: Source, K: Sink>(alloc: Global, source: &mut S, sink: &mut K) -> Status
    ensures command { result ≢ Status.BadWords }
    ensures answered { IsAnswered S.left S.faults K.taken K.faults Replays source.old source.new sink.old sink.new result }
{
    read_and_answer(alloc, &Replay, source, sink)
}

/// Reads a file, runs its processes by its schedule, and writes the history in format 2.
pub fn replay_two_top<S: Source, K: Sink>(alloc: Global, source: &mut S, sink: &mut K) -> Status
    ensures command { result ≢ Status.BadWords }
    ensures answered { IsAnswered S.left S.faults K.taken K.faults ReplaysTwo source.old source.new sink.old sink.new result }
{
    read_and_answer(alloc, &ReplayTwo, source, sink)
}

/// Writes the made file of a load.
pub fn make_top<K: Sink>(alloc: Global, seed: u32, nodes: u32, size: u32, sink: &mut K) -> Status
    requires load { IsWithin nodes size }
    ensures made { IsMade K.taken K.faults (λ output. output ≡ made seed nodes size) sink.old sink.new result }
{
    match make(alloc, seed, nodes, size) {
        Err(_) => Status::NoMemory,
        Ok(text) => put(sink, &text, Status::Done),
    }
}

/// Runs the made file of a load on its nodes, and writes what it comes to.
pub fn load_top<K: Sink>(alloc: Global, seed: u32, nodes: u32, size: u32, sink: &mut K) -> Status
    requires load { IsWithin nodes size }
    ensures loaded { IsMade K.taken K.faults (Loads seed nodes size) sink.old sink.new result }
{
    match load(alloc, seed, nodes, size) {
        Err(_) => Status::NoMemory,
        Ok(text) => put(sink, &text, Status::Done),
    }
}
