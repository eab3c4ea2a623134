// The nodes of a cluster, each with what is on its way to it, and a turn of one of them.
ghost use Rattle.std.specs.Prelude.{ℕ, ◌≡◌, ◌<◌, ◌++◌, ◌∷◌, [], length, slice_get, slice_set, replicate, Some, IfOk, OnOk};
ghost use Rattle.std.specs.Option.{option_map};
ghost use Rattle.unix_calls.specs.Valid.{IsValid};
ghost use Rattle.unix_calls.specs.declared.Turn.TheVariants.{Go, Push, Take};
ghost use Rattle.cluster_state.specs.Cluster.{first_cluster};
ghost use Rattle.cluster_core.specs.MethodShows.{Shows, IsMade, AreDelivered};
ghost use Rattle.cluster_core.specs.MethodReached.{IsReached};

use crate::arrivals::Arrivals;
use node_core::{GoRefusal, Node, TakeRefusal};
use node_state::Sent;
use record_bag::OpVector;
use std::alloc::Global;
use unix_calls::{Entry, Turn, World};
use unix_names::{NoMemory, NodeId, Seq};

/// A node, and what is on its way to it.
#[derive(Drop)]
pub struct Place<O: OpVector> {
    pub node: Node<O>,
    pub arrivals: Arrivals,
}

/// The nodes of a world before the first turn, over the same decisions.
pub fn first_places<O: OpVector + Copy + Drop>(
    alloc: Global,
    ops: O,
    world: &World,
) -> Result<Vec<Place<O>>, NoMemory>
    requires { IsValid world.now }
    ensures { IfOk result (λ places. Shows world.now.nodes (record { ops = ops; cluster = first_cluster world.now }) places.items) }
{
    let mut places = Vec::new(alloc);
    for k in 0..world.nodes {
        places.push(Place {
            node: Node::new(alloc, ops, world, NodeId(k))?,
            arrivals: Arrivals::new(alloc, world.nodes)?,
        })?;
    }
    Ok(places)
}

#[tactic(auto, using(crate::proofs::Sending::one_delivered, crate::proofs::Sending::none_there))]
// A message of a node arrives at the place of the node that it goes to.
fn arrive<O: OpVector>(places: &mut Vec<Place<O>>, from: u32, sent: Sent) -> Result<(), NoMemory>
    requires { (k : ℕ) (place : Place O) → slice_get places.old.items k ≡ Some place → from < length place.arrivals }
    ensures { OnOk result (AreDelivered from (sent ∷ []) places.old.items places.new.items) }
{
    match places.get_mut(sent.to as usize) {
        Some(place) => place.arrivals.put(from, sent),
        None => Ok(()),
    }
}

// What a turn of a node sends arrives, in order.
fn deliver<O: OpVector>(
    places: &mut Vec<Place<O>>,
    from: u32,
    sends: Seq<Sent>,
) -> Result<(), NoMemory>
    requires { (k : ℕ) (place : Place O) → slice_get places.old.items k ≡ Some place → from < length place.arrivals }
    ensures { OnOk result (AreDelivered from sends places.old.items places.new.items) }
{
    for sent in sends.into_vec() {
        arrive(places, from, sent)?;
    }
    Ok(())
}

/// The first of a node's ready queue has its turn. None exactly where there is no such node, or nobody is ready there.
pub(crate) fn go<O: OpVector>(
    places: &mut Vec<Place<O>>,
    alloc: Global,
    world: &World,
    k: u32,
) -> Result<Option<Option<Entry>>, NoMemory>
    requires { IsReached O.fits O.answer world.now places.old.items }
    ensures { IfOk result (λ made. (at : IsReached O.fits O.answer world.now places.old.items) → IsMade O.answer world.now (Go k) at.shown made places.new.items) }
{
    let Some(place) = places.get_mut(k as usize) else {
        return Ok(None);
    };
    match place.node.go(alloc, world) {
        Ok(out) => {
            deliver(places, k, out.sends)?;
            Ok(Some(out.entry))
        }
        Err(GoRefusal::Idle) => Ok(None),
        Err(GoRefusal::NoMemory) => Err(NoMemory),
    }
}

/// The first image of a node's ready queue that is not stopped sets out for another node. None exactly where there is no such node, or none to be moved.
pub(crate) fn push<O: OpVector>(
    places: &mut Vec<Place<O>>,
    alloc: Global,
    world: &World,
    k: u32,
    to: u32,
) -> Result<Option<Option<Entry>>, NoMemory>
    requires { IsReached O.fits O.answer world.now places.old.items }
    ensures { IfOk result (λ made. (at : IsReached O.fits O.answer world.now places.old.items) → IsMade O.answer world.now (Push k to) at.shown made places.new.items) }
{
    if to >= world.nodes {
        return Ok(None);
    }
    let Some(place) = places.get_mut(k as usize) else {
        return Ok(None);
    };
    match place.node.push(alloc, world, NodeId(to)) {
        Ok(out) => {
            deliver(places, k, out.sends)?;
            Ok(Some(out.entry))
        }
        Err(GoRefusal::Idle) => Ok(None),
        Err(GoRefusal::NoMemory) => Err(NoMemory),
    }
}

/// A node takes the oldest message on the wire from another. None exactly where there is no such node, or no message.
pub(crate) fn take<O: OpVector>(
    places: &mut Vec<Place<O>>,
    alloc: Global,
    world: &World,
    k: u32,
    from: u32,
) -> Result<Option<Option<Entry>>, NoMemory>
    requires { IsReached O.fits O.answer world.now places.old.items }
    ensures { IfOk result (λ made. (at : IsReached O.fits O.answer world.now places.old.items) → IsMade O.answer world.now (Take k from) at.shown made places.new.items) }
{
    let Some(place) = places.get_mut(k as usize) else {
        return Ok(None);
    };
    let Some(sent) = place.arrivals.take(from) else {
        return Ok(None);
    };
    match place
        .node
        .take(alloc, world, NodeId(from), sent.number, sent.message)
    {
        Ok(out) => {
            deliver(places, k, out.sends)?;
            Ok(Some(out.entry))
        }
        Err(TakeRefusal::NotNext { .. }) => unreachable!(),
        Err(TakeRefusal::NoMemory) => Err(NoMemory),
    }
}

/// A turn of a schedule. None exactly where it is not possible; `auto` stands for other turns.
///
/// # Errors
/// NoMemory where a node, or a wire to one, finds none. The places are of no use then: the node has failed for good, or what it sends has come in part.
pub(crate) fn turn<O: OpVector>(
    places: &mut Vec<Place<O>>,
    alloc: Global,
    world: &World,
    turn: Turn,
) -> Result<Option<Option<Entry>>, NoMemory>
    requires { IsReached O.fits O.answer world.now places.old.items }
    ensures { IfOk result (λ made. (at : IsReached O.fits O.answer world.now places.old.items) → IsMade O.answer world.now turn at.shown made places.new.items) }
{
    match turn {
        Turn::Go(k) => go(places, alloc, world, k),
        Turn::Push(k, to) => push(places, alloc, world, k, to),
        Turn::Take(k, from) => take(places, alloc, world, k, from),
        Turn::Auto(_) => Ok(None),
    }
}
