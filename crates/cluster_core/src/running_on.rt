// Turns that are given are made, and then turns by the rule.
ghost use Rattle.std.specs.Prelude.{ℕ, ◌≡◌, ◌<◌, ◌+◌, ◌≤◌, false, length, slice_index, slice_set, IfOk, IsTrue};
ghost use Rattle.unix_calls.specs.Valid.{IsValid};
ghost use Rattle.cluster_state.specs.Possible.{node_of, Possible};
ghost use Rattle.cluster_core.specs.Deciding.{MayDecide};
ghost use Rattle.cluster_core.specs.MethodReached.{IsReached};
ghost use Rattle.cluster_core.specs.MethodGoingOn.{AreInside, IsTally, GoesOn};
ghost use Rattle.cluster_core.specs.RunOn.{most_turns, AreFew, IsRunOn};

use crate::cluster::{Place, first_places};
use crate::playing::{Log, Played, found_turn, play, play_one};
use record_bag::OpVector;
use std::alloc::Global;
use unix_calls::{Turn, World};
use unix_names::NoMemory;

// No node makes more turns.
const MOST_TURNS: u64 = 1 << 40;

// Whose turn it is.
fn node_of(turn: Turn) -> u32
    ensures { result ≡ node_of turn }
{
    match turn {
        Turn::Go(k) | Turn::Push(k, _) | Turn::Take(k, _) => k,
        Turn::Auto(_) => 0,
    }
}

// A turn more of a node, unless it has made as many as it may.
fn count_turn(made: &mut Vec<u64>, k: u32) -> bool
    requires { k < length made.old.items }
    ensures more { IsTrue result → slice_index made.old.items k < most_turns }
    ensures counted { IsTrue result → made.new.items ≡ slice_set made.old.items k (slice_index made.old.items k + 1) }
    ensures most { result ≡ false → most_turns ≤ slice_index made.old.items k }
    ensures kept { result ≡ false → made.new.items ≡ made.old.items }
{
    let count = &mut made[k as usize];
    if *count >= MOST_TURNS {
        return false;
    }
    *count += 1;
    true
}

// How many of the turns each node made.
fn tally(alloc: Global, nodes: u32, steps: &[Turn]) -> Result<Vec<u64>, NoMemory>
    requires inside { AreInside nodes steps.now }
    requires few { AreFew steps.now }
    ensures { IfOk result (λ made. IsTally nodes steps.now made.items) }
{
    let mut made = Vec::new(alloc);
    for _ in 0..nodes {
        made.push(0)?;
    }
    for this in steps {
        made[node_of(*this) as usize] += 1;
    }
    Ok(made)
}

// Turns are made by the rule, until it finds none, or one of a node that has made as many as it may. Whether it found none.
fn go_on<O: OpVector>(
    places: &mut Vec<Place<O>>,
    alloc: Global,
    world: &World,
    made: &mut Vec<u64>,
    log: &mut Log,
) -> Result<bool, NoMemory>
    requires reached { IsReached O.fits O.answer world.now places.old.items }
    requires tally { IsTally world.now.nodes log.old.steps.items made.old.items }
    requires few { AreFew log.old.steps.items }
    ensures { IfOk result (λ quiet. (at : IsReached O.fits O.answer world.now places.old.items) → GoesOn O.answer world.now at.shown quiet log.old log.new places.new.items) }
{
    while let Some(this) = found_turn(places, world) {
        if !count_turn(made, node_of(this)) {
            return Ok(false);
        }
        play_one(places, alloc, world, this, log)?;
    }
    Ok(true)
}

/// Makes the turns that are given, with the same decisions at each node, and then turns by the rule of `auto`. It ends where nothing is left to do, or where the next turn is one of a node that has made 2^40 turns; only then it is not quiet.
///
/// # Errors
/// NoMemory alone.
pub fn run_on<O: OpVector + Copy + Drop>(
    alloc: Global,
    ops: O,
    world: &World,
    steps: &[Turn],
) -> Result<Played, NoMemory>
    requires valid { IsValid world.now }
    requires decides { MayDecide world.now (O.fits ops) (O.answer ops) }
    requires possible { Possible world.now (O.answer ops) steps.now }
    requires few { AreFew steps.now }
    ensures { IfOk result (IsRunOn world.now (O.answer ops) steps.now) }
{
    let mut made = tally(alloc, world.nodes, steps)?;
    let mut places = first_places(alloc, ops, world)?;
    let mut log = Log {
        entries: Vec::new(alloc),
        numbers: Vec::new(alloc),
        steps: Vec::new(alloc),
    };
    for this in steps {
        play(&mut places, alloc, world, *this, &mut log)?;
    }
    let is_quiet = go_on(&mut places, alloc, world, &mut made, &mut log)?;
    Ok(Played {
        entries: log.entries,
        numbers: log.numbers,
        steps: log.steps,
        is_quiet,
    })
}
