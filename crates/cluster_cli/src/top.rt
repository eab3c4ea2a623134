// The top call: from the words of the command line and the source to the sink and the status.
ghost use Rattle.std.specs.Prelude.{◌≡◌, ◌↔◌, ℕ, map};
ghost use Rattle.load_maker.specs.Made.{made};
ghost use Rattle.cluster_cli.specs.declared.commands.Load.{Load};
ghost use Rattle.cluster_cli.specs.Commands.{Says, SaysNothing};
ghost use Rattle.command_ends.specs.Ends.{IsAnswered, IsMade};
ghost use Rattle.history_shell.specs.Audit.{Audits};
ghost use Rattle.history_shell.specs.Tables.{TellsTable, TellsGround};
ghost use Rattle.run_shell.specs.Load.{Loads};
ghost use Rattle.run_shell.specs.Replay.{Replays, ReplaysTwo};
ghost use Rattle.job_commands.specs.Compiling.{Compiles};
ghost use Rattle.job_runs.specs.Jobs.{RunsJobs};
ghost use Rattle.thread_shell.specs.Served.{RunsByThreads};

use crate::commands::{Command, command_of};
use byte_ends::{Hold, Sink, Source};
use command_ends::Status;
use history_shell::{audit_top, table_top, why_top};
use job_commands::compile_top;
use job_runs::jobs_top;
use run_shell::{load_top, make_top, replay_top, replay_two_top};
use std::alloc::Global;
use std::sync::Wait;
use std::thread::Threads;
use thread_shell::run_top;

/// Does what the words of the command line ask. Where nodes run in threads, the hold may hold one back.
pub fn vproc_top<R: Threads + Wait + Sync, S: Source, K: Sink, H: Hold + Sync>(
    rt: &R,
    alloc: Global,
    words: &[&str],
    source: &mut S,
    sink: &mut K,
    hold: &H,
) -> Status
    // Exactly where the words are no command, and nothing is read or written.
    ensures bad_words { (result ≡ Status.BadWords) ↔ SaysNothing (map (λ w. w.now) words.now) }
    ensures untouched { result ≡ Status.BadWords → (source.new ≡ source.old) × (sink.new ≡ sink.old) }

    ensures replay { Says (map (λ w. w.now) words.now) Command.Replay
        → IsAnswered S.left S.faults K.taken K.faults Replays source.old source.new sink.old sink.new result }
    ensures replay_two { Says (map (λ w. w.now) words.now) Command.ReplayTwo
        → IsAnswered S.left S.faults K.taken K.faults ReplaysTwo source.old source.new sink.old sink.new result }
    ensures run_by_threads { (workers : ℕ) → Says (map (λ w. w.now) words.now) (Command.Run workers)
        → IsAnswered S.left S.faults K.taken K.faults RunsByThreads source.old source.new sink.old sink.new result }
    ensures audit { Says (map (λ w. w.now) words.now) Command.Audit
        → IsAnswered S.left S.faults K.taken K.faults Audits source.old source.new sink.old sink.new result }
    ensures table { (at : ℕ) → Says (map (λ w. w.now) words.now) (Command.Table at)
        → IsAnswered S.left S.faults K.taken K.faults (TellsTable at) source.old source.new sink.old sink.new result }
    ensures why { (at : ℕ) → Says (map (λ w. w.now) words.now) (Command.Why at)
        → IsAnswered S.left S.faults K.taken K.faults (TellsGround at) source.old source.new sink.old sink.new result }
    ensures compile { Says (map (λ w. w.now) words.now) Command.Compile
        → IsAnswered S.left S.faults K.taken K.faults Compiles source.old source.new sink.old sink.new result }
    ensures jobs { Says (map (λ w. w.now) words.now) Command.Jobs
        → IsAnswered S.left S.faults K.taken K.faults RunsJobs source.old source.new sink.old sink.new result }
    ensures make { (load : Load) → Says (map (λ w. w.now) words.now) (Command.Make load)
        → IsMade K.taken K.faults (λ output. output ≡ made load.seed load.nodes load.size) sink.old sink.new result × (source.new ≡ source.old) }
    ensures load { (load : Load) → Says (map (λ w. w.now) words.now) (Command.Load load)
        → IsMade K.taken K.faults (Loads load.seed load.nodes load.size) sink.old sink.new result × (source.new ≡ source.old) }
{
    match command_of(words) {
        None => Status::BadWords,
        Some(Command::Replay) => replay_top(alloc, source, sink),
        Some(Command::ReplayTwo) => replay_two_top(alloc, source, sink),
        Some(Command::Run(workers)) => run_top(rt, alloc, workers, source, sink, hold),
        Some(Command::Audit) => audit_top(alloc, source, sink),
        Some(Command::Table(at)) => table_top(alloc, at, source, sink),
        Some(Command::Why(at)) => why_top(alloc, at, source, sink),
        Some(Command::Compile) => compile_top(alloc, source, sink),
        Some(Command::Jobs) => jobs_top(alloc, source, sink),
        Some(Command::Make(load)) => make_top(alloc, load.seed, load.nodes, load.size, sink),
        Some(Command::Load(load)) => load_top(alloc, load.seed, load.nodes, load.size, sink),
    }
}
