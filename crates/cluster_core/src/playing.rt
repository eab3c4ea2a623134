// A schedule is played, turn after turn.
ghost use Rattle.std.specs.Prelude.{◌≡◌, ◌<◌, ◌^◌, ◌++◌, ◌∷◌, [], false, length, replicate, slice_get, IfOk, OnOk};
ghost use Rattle.unix_calls.specs.Valid.{IsValid};
ghost use Rattle.cluster_state.specs.Run.{This, ByRule, orders, chosen};
ghost use Rattle.cluster_core.specs.Deciding.{MayDecide};
ghost use Rattle.cluster_core.specs.MethodShows.{turn_at};
ghost use Rattle.cluster_core.specs.MethodReached.{IsReached, IsNoted, PlaysOn};
ghost use Rattle.cluster_core.specs.Played.{IsRunOf};

use crate::cluster::{Place, first_places, turn};
use record_bag::OpVector;
use std::alloc::Global;
use unix_calls::{Entry, Turn, World};
use unix_names::NoMemory;

/// What a schedule came to.
#[derive(Debug, Drop)]
pub struct Played {
    /// The history.
    pub entries: Vec<Entry>,
    /// For each entry the number of its turn among the turns that were made, counted from 0.
    pub numbers: Vec<u64>,
    /// The turns that were made. Each was possible at its place, and `auto` stands here for the turns that it found.
    pub steps: Vec<Turn>,
    /// Whether nothing was left to do: nobody ready at a node, and no message on a wire.
    pub is_quiet: bool,
}

/// What was made so far.
#[derive(Debug, Drop)]
pub struct Log {
    pub(crate) entries: Vec<Entry>,
    pub(crate) numbers: Vec<u64>,
    pub(crate) steps: Vec<Turn>,
}

impl Log {
    // A turn was made, which added this line or none.
    fn note(&mut self, turn: Turn, line: Option<Entry>) -> Result<(), NoMemory>
        ensures { OnOk result (IsNoted turn line self.old self.new) }
    {
        if let Some(entry) = line {
            self.numbers.push(self.steps.len() as u64)?;
            record(&mut self.entries, &entry)?;
        }
        self.steps.push(turn)?;
        Ok(())
    }
}

// A line is added to a history.
fn record(history: &mut Vec<Entry>, entry: &Entry) -> Result<(), NoMemory>
    ensures { OnOk result (history.new.items ≡ history.old.items ++ entry.now ∷ []) }
{
    // Form by form, so that the checker sees the types that an entry holds.
    match *entry {
        Entry::Called {
            caller,
            call,
            reply,
        } => history.push(Entry::Called {
            caller,
            call,
            reply,
        })?,
        Entry::Happened { pid, event } => history.push(Entry::Happened { pid, event })?,
    }
    Ok(())
}

// The turn that `auto` finds at one place: to take from the first node that sent something, or else to go.
fn turn_at<O: OpVector>(places: &mut Vec<Place<O>>, k: u32) -> Option<Turn>
    requires { (place : Place O) → slice_get places.old.items k ≡ Some place → length place.arrivals < 2 ^ 32 }
    ensures found { (place : Place O) → slice_get places.old.items k ≡ Some place → place.node.has_failed ≡ false → result ≡ turn_at k place }
    ensures kept { places.new.items ≡ places.old.items }
{
    let place = places.get_mut(k as usize)?;
    if let Some(from) = place.arrivals.first() {
        return Some(Turn::Take(k, from));
    }
    if place.node.is_idle() {
        None
    } else {
        Some(Turn::Go(k))
    }
}

// The turn that `auto` finds: at the first node that has one.
pub(crate) fn found_turn<O: OpVector>(places: &mut Vec<Place<O>>, world: &World) -> Option<Turn>
    requires { IsReached O.fits O.answer world.now places.old.items }
    ensures found { (at : IsReached O.fits O.answer world.now places.old.items) → result ≡ chosen world.now.nodes at.shown.cluster ByRule }
    ensures kept { places.new.items ≡ places.old.items }
{
    for k in 0..world.nodes {
        if let Some(turn) = turn_at(places, k) {
            return Some(turn);
        }
    }
    None
}

// One turn is made and noted, where it is possible.
pub(crate) fn play_one<O: OpVector>(
    places: &mut Vec<Place<O>>,
    alloc: Global,
    world: &World,
    this: Turn,
    log: &mut Log,
) -> Result<(), NoMemory>
    requires { IsReached O.fits O.answer world.now places.old.items }
    ensures { OnOk result ((at : IsReached O.fits O.answer world.now places.old.items) → PlaysOn O.answer world.now at.shown (This this ∷ []) log.old log.new places.new.items) }
{
    if let Some(line) = turn(places, alloc, world, this)? {
        log.note(this, line)?;
    }
    Ok(())
}

// So many turns are made by the rule of `auto`, or as many as it finds.
fn play_by_rule<O: OpVector>(
    places: &mut Vec<Place<O>>,
    alloc: Global,
    world: &World,
    count: u32,
    log: &mut Log,
) -> Result<(), NoMemory>
    requires { IsReached O.fits O.answer world.now places.old.items }
    ensures { OnOk result ((at : IsReached O.fits O.answer world.now places.old.items) → PlaysOn O.answer world.now at.shown (replicate count ByRule) log.old log.new places.new.items) }
{
    for done in 0..count {
        let Some(this) = found_turn(places, world) else {
            return Ok(());
        };
        play_one(places, alloc, world, this, log)?;
    }
    Ok(())
}

// What one turn of a schedule stands for.
pub(crate) fn play<O: OpVector>(
    places: &mut Vec<Place<O>>,
    alloc: Global,
    world: &World,
    this: Turn,
    log: &mut Log,
) -> Result<(), NoMemory>
    requires { IsReached O.fits O.answer world.now places.old.items }
    ensures { OnOk result ((at : IsReached O.fits O.answer world.now places.old.items) → PlaysOn O.answer world.now at.shown (orders (this ∷ [])) log.old log.new places.new.items) }
{
    match this {
        Turn::Auto(count) => play_by_rule(places, alloc, world, count, log),
        _ => play_one(places, alloc, world, this, log),
    }
}

/// Runs a schedule from the beginning of a world, with the same decisions at each node: a turn that is not possible does nothing, and `auto` finds its turns by its rule.
///
/// # Errors
/// NoMemory alone.
pub fn run<O: OpVector + Copy + Drop>(
    alloc: Global,
    ops: O,
    world: &World,
    schedule: &[Turn],
) -> Result<Played, NoMemory>
    requires valid { IsValid world.now }
    requires decides { MayDecide world.now (O.fits ops) (O.answer ops) }
    ensures { IfOk result (IsRunOf world.now (O.answer ops) schedule.now) }
{
    let mut places = first_places(alloc, ops, world)?;
    let mut log = Log {
        entries: Vec::new(alloc),
        numbers: Vec::new(alloc),
        steps: Vec::new(alloc),
    };
    for this in schedule {
        play(&mut places, alloc, world, *this, &mut log)?;
    }
    let is_quiet = found_turn(&mut places, world).is_none();
    Ok(Played {
        entries: log.entries,
        numbers: log.numbers,
        steps: log.steps,
        is_quiet,
    })
}
