// The turns of a node's state.
ghost use Rattle.std.specs.Prelude.{◌≡◌, ℕ, Some, IfOk};
ghost use Rattle.node_core.specs.Advance.{is_advanced};
ghost use Rattle.node_core.specs.Turns.{courier_with, going, pushed, arriving, came};
ghost use Rattle.node_core.specs.Conditions.{CanSetOut};
ghost use Rattle.node_core.specs.Views.{IsLed};

use crate::step::advance;
use courier_core::{Courier, Message};
use node_state::{State, Waiting};
use proc_image::Image;
use record_bag::{Bag, OpVector};
use std::alloc::Global;
use unix_calls::{Entry, Job, World};
use unix_names::{NoMemory, NodeId, Seq};

fn courier_with(alloc: Global, image: Image, job: Job) -> Courier
    ensures { result ≡ courier_with image job }
{
    Courier {
        image,
        job,
        wants: Seq::new(alloc),
        bag: Bag::new(alloc),
    }
}

/// The first of the ready queue has its turn. None where nobody stands there.
pub(crate) fn go<O: OpVector>(
    ops: &O,
    alloc: Global,
    world: &World,
    state: &mut State,
) -> Result<Option<Option<Entry>>, NoMemory>
    requires { CanSetOut (O.fits ops.now) world.now (O.answer ops.now) (going world.now state.old) }
    ensures { IfOk result (λ turn. IsLed world.now (O.answer ops.now) (going world.now state.old) state.old state.new turn) }
{
    match state.ready.pop() {
        Some(Waiting::Image(image)) => {
            let job = image.next_job(world);
            let courier = courier_with(alloc, image, job);
            Ok(Some(advance(ops, alloc, world, state, courier)?))
        }
        Some(Waiting::Courier(courier)) => Ok(Some(advance(ops, alloc, world, state, courier)?)),
        None => Ok(None),
    }
}

/// The first image of the queue that is not stopped sets out to be moved. None where there is none.
pub(crate) fn push<O: OpVector>(
    ops: &O,
    alloc: Global,
    world: &World,
    state: &mut State,
    to: NodeId,
) -> Result<Option<Option<Entry>>, NoMemory>
    requires { CanSetOut (O.fits ops.now) world.now (O.answer ops.now) (pushed state.old to) }
    ensures { IfOk result (λ turn. IsLed world.now (O.answer ops.now) (pushed state.old to) state.old state.new turn) }
{
    let Some(image) = state.ready.take_movable()? else {
        return Ok(None);
    };
    let courier = courier_with(alloc, image, Job::Push(to));
    Ok(Some(advance(ops, alloc, world, state, courier)?))
}

/// What a message does at the node.
pub(crate) fn come<O: OpVector>(
    ops: &O,
    alloc: Global,
    world: &World,
    state: &mut State,
    message: Message,
) -> Result<Option<Entry>, NoMemory>
    requires { CanSetOut (O.fits ops.now) world.now (O.answer ops.now) (arriving state.old message) }
    ensures { IfOk result (λ entry. (n : ℕ) × (came world.now (O.answer ops.now) n state.old message ≡ Some (is_advanced state.new entry))) }
{
    match message {
        Message::Ride(courier) => return advance(ops, alloc, world, state, courier),
        Message::Put(name, held) => state.lay(name, held)?,
        Message::Back(image) => state.place(image)?,
        Message::Nudge(pid) => state.nudge_here(pid)?,
        Message::Poke(pid) => state.poke(pid)?,
    }
    Ok(None)
}
