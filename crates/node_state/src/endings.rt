// What a decision leaves.
ghost use Rattle.std.specs.Prelude.{◌≡◌, OnOk, IfOk};
ghost use Rattle.unix_calls.specs.Valid.{IsValid};
ghost use Rattle.proc_image.specs.Images.{IsFit};
ghost use Rattle.node_state.specs.Endings.{place_in};

use crate::images::{child_of, move_on};
use crate::state::State;
use courier_core::Message;
use proc_image::Image;
use record_bag::{Bag, Decided};
use std::alloc::Global;
use unix_calls::{Entry, Phase, World};
use unix_names::{NoMemory, NodeId, Pid};
use vproc_record::Vproc;

/// The place of a process, if its record is held.
fn place_in(bag: &Bag, pid: Pid) -> Option<NodeId>
    ensures { result ≡ place_in bag.now pid }
{
    bag.vproc(pid).map(|vproc| vproc.loc)
}

impl State {
    ghost use Rattle.node_state.specs.Endings.{with_born, settled, child_placed, finished};

    // The record of a process that was born comes to its home.
    fn bear(&mut self, born: Option<Vproc>) -> Result<(), NoMemory>
        ensures { OnOk result (self.new ≡ with_born self.old born) }
    {
        let Some(vproc) = born else {
            return Ok(());
        };
        let Some(next) = self.serial.checked_add(1) else {
            return Err(NoMemory);
        };
        self.slots.create(vproc)?;
        self.serial = next;
        Ok(())
    }

    // The caller's image goes to the place that its record names.
    fn settle(&mut self, place: Option<NodeId>, image: Image) -> Result<(), NoMemory>
        ensures { OnOk result (self.new ≡ settled self.old place image) }
    {
        let Some(place) = place else {
            return Ok(());
        };
        match image.phase {
            Phase::Gone => Ok(()),
            _ if place.0 == self.id => self.place(image),
            _ => self.post(place.0, Message::Back(image)),
        }
    }

    fn place_child(&mut self, child: Option<Image>) -> Result<(), NoMemory>
        ensures { OnOk result (self.new ≡ child_placed self.old child) }
    {
        match child {
            Some(image) => self.place(image),
            None => Ok(()),
        }
    }

    /// The end of a courier, whose job was decided over this bag. Gives the line of the history, if there is one.
    pub fn finish(
        &mut self,
        alloc: Global,
        world: &World,
        mut image: Image,
        bag: Bag,
        done: Decided,
    ) -> Result<Option<Entry>, NoMemory>
        requires valid { IsValid world.now }
        requires fits { IsFit world.now image }
        ensures after { OnOk result (self.new ≡ finished world.now self.old image bag done) }
        ensures entry { IfOk result (λ entry. entry ≡ done.entry) }
    {
        let child = child_of(alloc, world, &image, &done.born)?;
        let place = place_in(&bag, image.pid);
        self.bear(done.born)?;
        self.give_back_all(bag)?;
        move_on(world, &mut image, done.own, done.phase, &done.entry);
        self.settle(place, image)?;
        self.place_child(child)?;
        self.nudge_all(done.nudges.as_slice())?;
        Ok(done.entry)
    }
}
