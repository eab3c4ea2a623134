// A made file is run on its nodes, and counted.
ghost use Rattle.std.specs.Prelude.{◌≡◌, IfOk};
ghost use Rattle.unix_calls.specs.Valid.{IsValid};
ghost use Rattle.load_laws.specs.Worlds.{made_world};
ghost use Rattle.run_shell.specs.Load.{IsWithin, is_fork, fork_count, counts, counts_text, load_turns, CountsRun, Loads};

use cluster_core::{Played, run};
use file_parts::Span;
use load_maker::make;
use script_reader::read_file;
use script_words::ReadRefusal;
use std::alloc::{AllocError, Global};
use unix_calls::{Call, Entry, MOST_TURNS, Reply, Turn, World};
use unix_names::{NoMemory, Seq};
use unix_ops::UnixOps;

/// What the run of a made file comes to.
#[derive(Clone, Copy, Debug)]
struct Counts {
    entries: u128,
    /// The starts and the forks that made a process.
    processes: u128,
    is_quiet: bool,
}

/// Runs the made file of a load on its nodes, and counts its entries and processes.
pub fn load(alloc: Global, seed: u32, nodes: u32, size: u32) -> Result<Vec<u8>, NoMemory>
    requires { IsWithin nodes size }
    ensures { IfOk result (λ text. Loads seed nodes size text.items) }
{
    let world = made_world(alloc, seed, nodes, size)?;
    let turns = load_turns(alloc)?;
    counted(alloc, &world, turns.as_slice())
}

// The world that a made file means.
fn made_world(alloc: Global, seed: u32, nodes: u32, size: u32) -> Result<World, NoMemory>
    requires { IsWithin nodes size }
    ensures { IfOk result (λ world. world ≡ made_world seed nodes size) }
{
    let file = make(alloc, seed, nodes, size)?;
    let part = Span {
        from: 0,
        to: file.len(),
        first_line: 1,
    };
    match read_file(alloc, &file, part) {
        Ok(world) => Ok(world),
        Err(ReadRefusal::NoMemory) => Err(NoMemory),
        Err(ReadRefusal::Bad(_)) => unreachable!(),
    }
}

// How a made file is run.
#[tactic(auto, unfolding(crate::specs::Load::load_turns))]
fn load_turns(alloc: Global) -> Result<Seq<Turn>, NoMemory>
    ensures { IfOk result (λ turns. turns ≡ load_turns) }
{
    let mut turns = Seq::new(alloc);
    turns.push(Turn::Auto(MOST_TURNS))?;
    Ok(turns)
}

// What is said of the run of a world.
fn counted(alloc: Global, world: &World, turns: &[Turn]) -> Result<Vec<u8>, NoMemory>
    requires { IsValid world.now }
    ensures { IfOk result (λ text. CountsRun world.now turns.now text.items) }
{
    let played = run(alloc, UnixOps, world, turns)?;
    Ok(counts_text(alloc, &counts_of(world, &played))?)
}

// What was played, counted.
fn counts_of(world: &World, played: &Played) -> Counts
    ensures { result ≡ counts world.now played.now.entries.items played.now.is_quiet }
{
    let entries = played.entries.as_slice();
    Counts {
        entries: entries.len() as u128,
        processes: world.starts.len() as u128 + count_forks(entries) as u128,
        is_quiet: played.is_quiet,
    }
}

fn counts_text(alloc: Global, counts: &Counts) -> Result<Vec<u8>, AllocError>
    ensures { IfOk result (λ text. text.items ≡ counts_text counts.now) }
{
    let mut text = String::new(alloc);
    let entries = counts.entries;
    let processes = counts.processes;
    text.push_str("entries ")?;
    write!(text, "{entries}")?;
    text.push_str("\nprocesses ")?;
    write!(text, "{processes}")?;
    text.push_str("\n")?;
    text.push_str(if counts.is_quiet { "quiet\n" } else { "open\n" })?;
    Ok(text.into_bytes())
}

// How many forks made a process.
fn count_forks(entries: &[Entry]) -> usize
    ensures { result ≡ fork_count entries.now }
{
    entries.iter().filter(|entry| is_fork(entry)).count()
}

fn is_fork(entry: &Entry) -> bool
    ensures { result ≡ is_fork entry.now }
{
    matches!(
        entry,
        Entry::Called {
            call: Call::Fork,
            reply: Reply::Number(_),
            ..
        }
    )
}
