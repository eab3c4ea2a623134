// How records come back to their homes, and how news reaches processes.
ghost use Rattle.std.specs.Prelude.{◌≡◌, map, OnOk};
ghost use Rattle.unix_names.specs.Names.{home};
ghost use Rattle.record_bag.specs.declared.Held.TheVariants.{V, G};
ghost use Rattle.record_bag.specs.Bags.{all_held, named_vproc, named_group};
ghost use Rattle.record_table.specs.Slots.{process, group_name};
ghost use Rattle.record_table.specs.Places.{poked_at};
ghost use Rattle.node_state.specs.Returns.{pid_named};

use crate::ready::Waiting;
use crate::state::State;
use courier_core::{Courier, Message};
use group_record::Group;
use ordered_table::{Entry, Table};
use record_bag::{Bag, Held};
use record_table::{Nudged, PutBack};
use unix_names::{Name, NoMemory, Pid, home_of, is_living};
use vproc_record::Vproc;

fn pid_named(name: Name) -> Pid
    ensures { result ≡ pid_named name }
{
    match name {
        Name::V(pid) => pid,
        Name::G(pid) => pid,
    }
}

/// Where a process with this record is to be told: at its place, unless it has ended.
fn place_of(vproc: &Option<Vproc>) -> Nudged
    ensures { result ≡ poked_at (V vproc.now) }
{
    match vproc {
        Some(vproc) if is_living(vproc.life) => Nudged::At(vproc.loc),
        _ => Nudged::Nobody,
    }
}

/// Where a process whose record rests is to be told: at its place, unless it has ended.
fn poked_at(held: &Held) -> Nudged
    ensures { result ≡ poked_at held.now }
{
    match held {
        Held::V(Some(vproc)) if is_living(vproc.life) => Nudged::At(vproc.loc),
        _ => Nudged::Nobody,
    }
}

impl State {
    ghost use Rattle.node_state.specs.Returns.{called, handed, laid, given_back, all_given_back, nudged_here, nudged, all_nudged};

    /// The node where the record of a name is at home.
    pub fn home_of(&self, name: Name) -> u32
        ensures { result ≡ home name self.now.nodes }
    {
        if self.nodes == 0 {
            0
        } else {
            home_of(name, self.nodes).0
        }
    }

    /// Tells a process where it is that it may go on.
    fn call(&mut self, pid: Pid, nudged: Nudged) -> Result<(), NoMemory>
        ensures { OnOk result (self.new ≡ called self.old pid nudged) }
    {
        match nudged {
            Nudged::At(place) if place.0 == self.id => self.poke(pid),
            Nudged::At(place) => self.post(place.0, Message::Poke(pid)),
            Nudged::Marked | Nudged::Nobody => Ok(()),
        }
    }

    // The first in line gets the record for which it waited, and joins the queue.
    fn hand(&mut self, mut courier: Courier, name: Name, held: Held) -> Result<(), NoMemory>
        ensures { OnOk result (self.new ≡ handed self.old courier name held) }
    {
        match courier.bag.put(name, held) {
            Ok(()) => self.ready.push(Waiting::Courier(courier)),
            Err(_) => Err(NoMemory),
        }
    }

    /// A record comes back to its home, which is here.
    pub fn lay(&mut self, name: Name, held: Held) -> Result<(), NoMemory>
        ensures { OnOk result (self.new ≡ laid self.old name held) }
    {
        let target = poked_at(&held);
        if !self.slots.is_awaited(name) {
            if self.slots.lay_alone(name, held)? {
                return self.call(pid_named(name), target);
            }
            return Ok(());
        }
        match self.slots.lay(name, held)? {
            PutBack::Rests { nudged: true } => self.call(pid_named(name), target),
            PutBack::Rests { nudged: false } => Ok(()),
            PutBack::Handed { waiter, held } => self.hand(waiter, name, held),
        }
    }

    // A process's record comes back to its home, which is here.
    fn lay_vproc(&mut self, pid: Pid, vproc: Option<Vproc>) -> Result<(), NoMemory>
        ensures { OnOk result (self.new ≡ laid self.old (process pid) (V vproc)) }
    {
        if self.slots.is_awaited(Name::V(pid)) {
            return self.lay(Name::V(pid), Held::V(vproc));
        }
        let target = place_of(&vproc);
        if self.slots.lay_vproc(pid, vproc)? {
            return self.call(pid, target);
        }
        Ok(())
    }

    // A group's record comes back to its home, which is here.
    fn lay_group(&mut self, leader: Pid, group: Option<Group>) -> Result<(), NoMemory>
        ensures { OnOk result (self.new ≡ laid self.old (group_name leader) (G group)) }
    {
        if self.slots.is_awaited(Name::G(leader)) {
            return self.lay(Name::G(leader), Held::G(group));
        }
        self.slots.lay_group(leader, group)
    }

    fn give_back_vproc(&mut self, pid: Pid, vproc: Option<Vproc>) -> Result<(), NoMemory>
        ensures { OnOk result (self.new ≡ given_back self.old (process pid) (V vproc)) }
    {
        let home = self.home_of(Name::V(pid));
        if home == self.id {
            self.lay_vproc(pid, vproc)
        } else {
            self.post(home, Message::Put(Name::V(pid), Held::V(vproc)))
        }
    }

    fn give_back_group(&mut self, leader: Pid, group: Option<Group>) -> Result<(), NoMemory>
        ensures { OnOk result (self.new ≡ given_back self.old (group_name leader) (G group)) }
    {
        let home = self.home_of(Name::G(leader));
        if home == self.id {
            self.lay_group(leader, group)
        } else {
            self.post(home, Message::Put(Name::G(leader), Held::G(group)))
        }
    }

    // Returns the records of processes, the least id first.
    fn give_back_vprocs(&mut self, mut vprocs: Table<Option<Vproc>>) -> Result<(), NoMemory>
        ensures { OnOk result (self.new ≡ all_given_back self.old (map named_vproc vprocs)) }
    {
        while let Some(Entry { pid, value }) = vprocs.pop_first() {
            self.give_back_vproc(pid, value)?;
        }
        Ok(())
    }

    // Returns the records of groups, the least id first.
    fn give_back_groups(&mut self, mut groups: Table<Option<Group>>) -> Result<(), NoMemory>
        ensures { OnOk result (self.new ≡ all_given_back self.old (map named_group groups)) }
    {
        while let Some(Entry { pid, value }) = groups.pop_first() {
            self.give_back_group(pid, value)?;
        }
        Ok(())
    }

    #[tactic(auto, using(crate::proofs::ReturnLaws::given_back_in_turn))]
    /// Returns all that a courier holds, in order of name.
    pub fn give_back_all(&mut self, bag: Bag) -> Result<(), NoMemory>
        ensures { OnOk result (self.new ≡ all_given_back self.old (all_held bag)) }
    {
        let Bag { vprocs, groups } = bag;
        self.give_back_vprocs(vprocs)?;
        self.give_back_groups(groups)
    }

    /// News for a process reaches its record's home, which is here.
    pub fn nudge_here(&mut self, pid: Pid) -> Result<(), NoMemory>
        ensures { OnOk result (self.new ≡ nudged_here self.old pid) }
    {
        let nudged = self.slots.nudge(pid);
        self.call(pid, nudged)
    }

    fn nudge(&mut self, pid: Pid) -> Result<(), NoMemory>
        ensures { OnOk result (self.new ≡ nudged self.old pid) }
    {
        let home = self.home_of(Name::V(pid));
        if home == self.id {
            self.nudge_here(pid)
        } else {
            self.post(home, Message::Nudge(pid))
        }
    }

    /// News for processes goes to their records' homes, in order.
    pub fn nudge_all(&mut self, pids: &[Pid]) -> Result<(), NoMemory>
        ensures { OnOk result (self.new ≡ all_nudged self.old pids.now) }
    {
        for pid in pids {
            self.nudge(*pid)?;
        }
        Ok(())
    }
}
