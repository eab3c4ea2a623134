// Threads serve the nodes of a world, each node under its lock.
ghost use Rattle.std.specs.Prelude.{ℕ, ◌≡◌, ◌<◌, ◌≤◌, ◌^◌, length, List, IfOk};
ghost use Rattle.unix_calls.specs.Valid.{IsValid};
ghost use Rattle.commit_log.specs.Passes.{first_passes};
ghost use Rattle.node_workers.specs.Serving.{IsServed};

use crate::letters::Letters;
use crate::machine::NodeMachine;
use crate::merging::merged_turns;
use crate::names::{LogName, WorldName};
use crate::node::{NodeState, Worked};
use crate::stations::{Station, first_stations};
use byte_ends::Hold;
use cluster_core::{Played, run_on};
use commit_log::{CommitLog, NodePass};
use std::alloc::Global;
use std::marker::Brand;
use std::sync::{Mutex, Wait};
use std::thread;
use std::thread::Threads;
use unix_calls::World;
use unix_names::NoMemory;
use unix_ops::UnixOps;

// No node makes more turns.
const MOST_TURNS: u64 = 1 << 40;

// All nodes together have at most so many workers.
const MOST_WORKERS: u32 = 128;

// After so many noes in a row a worker goes on as after a yes.
const MOST_NOES: u32 = 1_000;

// After so many looks in a row that found nothing a worker ends.
const MOST_LOOKS: u32 = 10_000;

// What a worker finds at one look at its node.
enum Found {
    // The hold said no.
    Held,
    // A turn was made.
    Did,
    // Nothing was to be done.
    Nothing,
}

// Puts letters into the inboxes of the nodes that they are for. A letter for no node is dropped, and one that finds no memory.
fn post<W: WorldName, J: LogName, R: Wait>(
    rt: &R,
    stations: &[Station<W, J>],
    mut letters: Letters<W, J>,
) -> Result<(), NoMemory> {
    while let Some(letter) = letters.next() {
        if let Some(station) = stations.get(letter.sent.to as usize) {
            station.inbox.put(rt, letter).map_err(|_| NoMemory)?;
        }
    }
    Ok(())
}

// One turn of a node whose lock is held, with the next letter of its inbox or without one. A node for whose letters there is no memory fails.
fn step<W: WorldName, J: LogName, R: Wait>(
    rt: &R,
    alloc: Global,
    world: &World,
    log: &CommitLog<NodeMachine<W>>,
    stations: &[Station<W, J>],
    station: &Station<W, J>,
    node: &mut NodeState<W, J>,
) -> Found
    requires world { world.now ≡ W.world }
    requires valid { IsValid world.now }
    requires log { log.now.log ≡ J.log }
    requires room { length node.old.list < 2 ^ 40 }
{
    let letter = station.inbox.next(rt);
    match node.turn(alloc, world, log, letter) {
        Ok(Worked::Did(letters)) => {
            if post(rt, stations, letters).is_err() {
                node.fail();
            }
            Found::Did
        }
        Ok(Worked::Nothing) | Err(NoMemory) => Found::Nothing,
    }
}

// One look of a worker at its node, under the node's lock. After a no nothing is done, unless there were too many.
fn look<W: WorldName, J: LogName, H: Hold, R: Wait>(
    rt: &R,
    alloc: Global,
    world: &World,
    log: &CommitLog<NodeMachine<W>>,
    stations: &[Station<W, J>],
    k: u32,
    hold: &H,
    noes: u32,
) -> Found
    requires world { world.now ≡ W.world }
    requires valid { IsValid world.now }
    requires log { log.now.log ≡ J.log }
    requires inside { k < length stations.now }
{
    let station = &stations[k as usize];
    let mut node = station.node.lock(rt);
    let turns = node.turns();
    if !hold.may_step(k, turns) && noes < MOST_NOES {
        return Found::Held;
    }
    if turns >= MOST_TURNS {
        return Found::Nothing;
    }
    step(rt, alloc, world, log, stations, station, &mut node)
}

// A worker serves its node, until it has found nothing for long.
fn work<W: WorldName, J: LogName, H: Hold, R: Wait>(
    rt: &R,
    alloc: Global,
    world: &World,
    log: &CommitLog<NodeMachine<W>>,
    stations: &[Station<W, J>],
    k: u32,
    hold: &H,
)
    requires world { world.now ≡ W.world }
    requires valid { IsValid world.now }
    requires log { log.now.log ≡ J.log }
    requires inside { k < length stations.now }
{
    let mut idle: u32 = 0;
    let mut noes: u32 = 0;
    for _ in rt.forever() {
        match look(rt, alloc, world, log, stations, k, hold, noes) {
            Found::Held => noes = noes.saturating_add(1),
            Found::Did => {
                hold.stepped(k);
                noes = 0;
                idle = 0;
            }
            Found::Nothing => {
                noes = 0;
                idle = idle.saturating_add(1);
                if idle >= MOST_LOOKS {
                    return;
                }
            }
        }
    }
    unreachable!()
}

// So many workers for each node. One for which no thread starts is left out.
fn work_all<
    W: WorldName + Send + Sync,
    J: LogName + Send + Sync,
    H: Hold + Sync,
    R: Threads + Wait + Sync,
>(
    rt: &R,
    alloc: Global,
    world: &World,
    log: &CommitLog<NodeMachine<W>>,
    stations: &[Station<W, J>],
    each: u32,
    hold: &H,
)
    requires world { world.now ≡ W.world }
    requires valid { IsValid world.now }
    requires log { log.now.log ≡ J.log }
    requires many { length stations.now ≡ world.now.nodes }
{
    thread::scope(
        thread::scope_env(),
        rt,
        |scope|
            requires { (world.now ≡ W.world) × IsValid world.now × (log.now.log ≡ J.log) × (length stations.now ≡ world.now.nodes) }
        {
            for k in 0..world.nodes {
                for _ in 0..each {
                    let _ = scope.spawn(
                        move ||
                            requires { (world.now ≡ W.world) × IsValid world.now × (log.now.log ≡ J.log) × (k < length stations.now) }
                        { work(rt, alloc, world, log, stations, k, hold) },
                    );
                }
            }
        },
    );
}

// The nodes are served, and the turns that they made are merged and made once more by one thread, which goes on where they ended.
fn serve_logged<
    W: WorldName + Send + Sync,
    J: LogName + Send + Sync,
    H: Hold + Sync,
    R: Threads + Wait + Sync,
>(
    rt: &R,
    alloc: Global,
    world: &World,
    workers: u32,
    hold: &H,
    log: CommitLog<NodeMachine<W>>,
    passes: Vec<NodePass<NodeMachine<W>>>,
) -> Result<Played, NoMemory>
    requires world { world.now ≡ W.world }
    requires valid { IsValid world.now }
    requires log { (log.log ≡ J.log) × (log.nodes ≡ world.now.nodes) }
    requires passes { passes.items ≡ first_passes J.log 0 world.now.nodes }
    ensures { IfOk result (IsServed world.now) }
{
    let stations = first_stations::<W, J>(alloc, world, passes)?;
    let each = workers.min(MOST_WORKERS / world.nodes);
    work_all(rt, alloc, world, &log, stations.as_slice(), each, hold);
    let steps = merged_turns(alloc, log, stations)?;
    run_on(alloc, UnixOps, world, steps.as_slice())
}

// The same with a log of its own, whose name is picked here.
fn serve_named<W: WorldName + Send + Sync, H: Hold + Sync, R: Threads + Wait + Sync>(
    rt: &R,
    alloc: Global,
    world: &World,
    workers: u32,
    hold: &H,
) -> Result<Played, NoMemory>
    requires world { world.now ≡ W.world }
    requires valid { IsValid world.now }
    ensures { IfOk result (IsServed world.now) }
{
    let (log, passes) = CommitLog::<NodeMachine<W>>::new(alloc, world.nodes)?;
    serve_logged::<W, Brand, H, R>(rt, alloc, world, workers, hold, log, passes)
}

/// Serves the nodes of a world by threads, the lesser of `workers` and 128 divided by the number of nodes for each, and then goes on alone until nothing is left to do, or a node would make more than 2^40 turns. The turns in the order of their places are a list of possible turns, and what is answered is their run.
///
/// # Errors
/// NoMemory alone, also where a node found none.
pub fn serve<H: Hold + Sync, R: Threads + Wait + Sync>(
    rt: &R,
    alloc: Global,
    world: &World,
    workers: u32,
    hold: &H,
) -> Result<Played, NoMemory>
    requires valid { IsValid world.now }
    ensures { IfOk result (IsServed world.now) }
{
    serve_named::<Brand, H, R>(rt, alloc, world, workers, hold)
}
