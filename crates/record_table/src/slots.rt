// The slots of a node.
ghost use Rattle.std.specs.Prelude.{◌≡◌, [], true, false, IfOk, IfErr, OnOk, OnErr, IsOk};
ghost use Rattle.record_bag.specs.Kinds.{of_kind};

use crate::slot::{
    GroupSlot, Line, NamedSlot, Slot, VprocSlot, in_groups, in_vprocs, leave, nobody, of_group,
    of_vproc, swap_in,
};
use group_record::Group;
use ordered_table::{Queue, Table};
use record_bag::Held;
use std::alloc::Global;
use unix_names::{Name, NoMemory, NodeId, Pid, is_living};
use vproc_record::Vproc;

/// What a record's home answers to who asks for the record.
#[derive(Debug, Drop)]
pub enum Taken {
    Here(Held),
    Out,
}

/// What becomes of a record that comes back: it rests, and its process was nudged meanwhile or not; or it goes on to the first who waits.
#[derive(Debug, Drop)]
pub enum PutBack<C> {
    Rests { nudged: bool },
    Handed { waiter: C, held: Held },
}

/// What becomes of a nudge: the process's record is out, and now marked; the process is to be poked at its place; or there is none that has not ended.
#[derive(Clone, Copy, Debug, PartialEq, Eq)]
pub enum Nudged {
    Marked,
    At(NodeId),
    Nobody,
}

/// The homes of records, one for each name. A name never seen is at home and absent.
#[derive(Debug, Drop)]
pub struct Slots<C> {
    pub vprocs: Table<VprocSlot<C>>,
    pub groups: Table<GroupSlot<C>>,
}

impl<C: Drop> Slots<C> {
    ghost use Rattle.record_table.specs.Places.{nobody, line_of, taken, left, put_back, given, joined, nudged, marked};
    ghost use Rattle.record_table.specs.Slots.{slot_at, with_slot, process, resting, group_name, resting_group, is_known, is_out, is_awaited, after_take, after_nudge, SameElsewhere};
    ghost use Rattle.record_table.specs.declared.slot.Slot.TheVariants.{Home, Out};

    /// Slots in which every record is at home and absent. It takes no memory.
    pub fn new(alloc: Global) -> Slots<C>
        ensures vprocs { result.vprocs ≡ [] }
        ensures groups { result.groups ≡ [] }
    {
        Slots {
            vprocs: Table::new(alloc),
            groups: Table::new(alloc),
        }
    }

    /// Whether a record is out. It takes no memory.
    pub fn is_out(&self, name: Name) -> bool
        ensures { result ≡ is_out self.now name }
    {
        match name {
            Name::V(pid) => matches!(self.vprocs.get(pid), Some(Slot::Out(_))),
            Name::G(pid) => matches!(self.groups.get(pid), Some(Slot::Out(_))),
        }
    }

    /// Takes the record that rests under a name; it is then out, without a mark and with nobody in line. Where it is out already nothing changes.
    pub fn take(&mut self, alloc: Global, name: Name) -> Result<Taken, NoMemory>
        ensures taken { IfOk result (λ t. t ≡ taken (slot_at self.old name)) }
        ensures ok { OnOk result (self.new ≡ after_take self.old name (slot_at self.old name)) }
        ensures err { OnErr result (self.new ≡ self.old) }

        // Who asks for a record that is out is told without memory.
        ensures out { is_out self.old name ≡ true → IsOk result }

        // The record is out afterwards, and the other names are as before.
        ensures stands { OnOk result (slot_at self.new name ≡ left (slot_at self.old name)) }
        ensures others { SameElsewhere name self.old self.new }
    {
        if self.is_out(name) {
            return Ok(Taken::Out);
        }
        let held = self.take_rested(alloc, name)?;
        Ok(Taken::Here(held))
    }

    /// Takes the record of a process that rests at its home; it is then out, without a mark and with nobody in line.
    pub fn take_vproc(&mut self, alloc: Global, pid: Pid) -> Result<Option<Vproc>, NoMemory>
        requires { is_out self.old (process pid) ≡ false }
        ensures before { IfOk result (λ vproc. slot_at self.old (process pid) ≡ resting vproc) }
        ensures ok { OnOk result (self.new ≡ with_slot self.old (process pid) (Out nobody)) }
        ensures err { OnErr result (self.new ≡ self.old) }
    {
        leave(&mut self.vprocs, pid, nobody(alloc))
    }

    /// Takes the record of a group that rests at its home; it is then out, with nobody in line.
    pub fn take_group(&mut self, alloc: Global, leader: Pid) -> Result<Option<Group>, NoMemory>
        requires { is_out self.old (group_name leader) ≡ false }
        ensures before { IfOk result (λ group. slot_at self.old (group_name leader) ≡ resting_group group) }
        ensures ok { OnOk result (self.new ≡ with_slot self.old (group_name leader) (Out nobody)) }
        ensures err { OnErr result (self.new ≡ self.old) }
    {
        leave(&mut self.groups, leader, Queue::new(alloc))
    }

    /// Brings a record back: to the first in line, and then it stays out; or it rests without a mark. A record of the other kind counts as absent. It takes no memory.
    pub fn put(&mut self, name: Name, held: Held) -> PutBack<C>
        requires { is_out self.old name ≡ true }
        ensures answer { let line = line_of (slot_at self.old name) in result ≡ put_back line.is_marked line.waiters (of_kind name held) }
        ensures after { let line = line_of (slot_at self.old name) in self.new ≡ with_slot self.old name (given line.is_marked line.waiters held) }

        // It rests there, or is still out; the other names are as before.
        ensures stands { let line = line_of (slot_at self.old name) in slot_at self.new name ≡ given line.is_marked line.waiters (of_kind name held) }
        ensures others { SameElsewhere name self.old self.new }
    {
        match self.replace(name, Slot::Home(held)) {
            Slot::Out(mut line) => match line.waiters.pop() {
                None => PutBack::Rests {
                    nudged: line.is_marked,
                },
                Some(waiter) => match self.replace(name, Slot::Out(line)) {
                    Slot::Home(held) => PutBack::Handed { waiter, held },
                    Slot::Out(_) => unreachable!(),
                },
            },
            Slot::Home(_) => unreachable!(),
        }
    }

    /// Brings a record back as `put` does. Where it is at home already, this one takes its place; that alone may need memory.
    pub fn lay(&mut self, name: Name, held: Held) -> Result<PutBack<C>, NoMemory>
        ensures answer { IfOk result (λ answer. let line = line_of (slot_at self.old name) in answer ≡ put_back line.is_marked line.waiters (of_kind name held)) }
        ensures after { OnOk result (let line = line_of (slot_at self.old name) in self.new ≡ with_slot self.old name (given line.is_marked line.waiters held)) }
        ensures err { OnErr result (self.new ≡ self.old) }
    {
        if self.is_out(name) {
            return Ok(self.put(name, held));
        }
        self.rest(name, held)?;
        Ok(PutBack::Rests { nudged: false })
    }

    /// Whether somebody waits for a record that is out. It takes no memory.
    pub fn is_awaited(&self, name: Name) -> bool
        ensures { result ≡ is_awaited self.now name }
    {
        match name {
            Name::V(pid) => match self.vprocs.get(pid) {
                Some(Slot::Out(line)) => !line.waiters.is_empty(),
                _ => false,
            },
            Name::G(pid) => match self.groups.get(pid) {
                Some(Slot::Out(waiters)) => !waiters.is_empty(),
                _ => false,
            },
        }
    }

    /// Lays a record for which nobody waits at its home, and tells whether its process was nudged meanwhile. Where it is out no memory is taken.
    pub fn lay_alone(&mut self, name: Name, held: Held) -> Result<bool, NoMemory>
        requires { is_awaited self.old name ≡ false }
        ensures nudged { IfOk result (λ nudged. nudged ≡ (line_of (slot_at self.old name)).is_marked) }
        ensures after { OnOk result (self.new ≡ with_slot self.old name (Home held)) }
        ensures err { OnErr result (self.new ≡ self.old) }
    {
        match name {
            Name::V(pid) => self.lay_vproc(pid, held.into_vproc()),
            Name::G(pid) => {
                self.lay_group(pid, held.into_group())?;
                Ok(false)
            }
        }
    }

    /// Lays the record of a process for which nobody waits at its home, and tells whether the process was nudged meanwhile. Where it is out no memory is taken.
    pub fn lay_vproc(&mut self, pid: Pid, vproc: Option<Vproc>) -> Result<bool, NoMemory>
        requires { is_awaited self.old (process pid) ≡ false }
        ensures nudged { IfOk result (λ nudged. nudged ≡ (line_of (slot_at self.old (process pid))).is_marked) }
        ensures after { OnOk result (self.new ≡ with_slot self.old (process pid) (resting vproc)) }
        ensures err { OnErr result (self.new ≡ self.old) }
    {
        match self.vprocs.put(pid, Slot::Home(vproc)) {
            Ok(Some(Slot::Out(line))) => Ok(line.is_marked),
            Ok(_) => Ok(false),
            Err(_) => Err(NoMemory),
        }
    }

    /// Lays the record of a group for which nobody waits at its home. Where it is out no memory is taken.
    pub fn lay_group(&mut self, leader: Pid, group: Option<Group>) -> Result<(), NoMemory>
        requires { is_awaited self.old (group_name leader) ≡ false }
        ensures after { OnOk result (self.new ≡ with_slot self.old (group_name leader) (resting_group group)) }
        ensures err { OnErr result (self.new ≡ self.old) }
    {
        match self.groups.put(leader, Slot::Home(group)) {
            Ok(_) => Ok(()),
            Err(_) => Err(NoMemory),
        }
    }

    /// Lays a record at its home, whatever stood there. Where the name was seen, no memory is taken.
    pub fn rest(&mut self, name: Name, held: Held) -> Result<(), NoMemory>
        ensures ok { OnOk result (self.new ≡ with_slot self.old name (Home held)) }
        ensures err { OnErr result (self.new ≡ self.old) }
        ensures known { is_known self.old name ≡ true → IsOk result }
    {
        self.swap(name, Slot::Home(held))?;
        Ok(())
    }

    /// Puts the record of a new process at home, under its id, whatever stood there.
    pub fn create(&mut self, vproc: Vproc) -> Result<(), NoMemory>
        ensures ok { OnOk result (self.new ≡ with_slot self.old (process vproc.pid) (resting (Some vproc))) }
        ensures rests { OnOk result (slot_at self.new (process vproc.pid) ≡ resting (Some vproc)) }
        ensures err { OnErr result (self.new ≡ self.old) }
        ensures others { SameElsewhere (process vproc.pid) self.old self.new }
    {
        let name = Name::V(vproc.pid);
        self.swap(name, Slot::Home(Held::V(Some(vproc))))?;
        Ok(())
    }

    /// Joins the end of those who wait for a record that is out. Refused for want of memory alone; who waits then comes back.
    pub fn wait(&mut self, name: Name, waiter: C) -> Result<(), C>
        requires { is_out self.old name ≡ true }
        ensures ok { OnOk result (self.new ≡ with_slot self.old name (Out (joined (line_of (slot_at self.old name)) waiter))) }
        ensures stands { OnOk result (slot_at self.new name ≡ Out (joined (line_of (slot_at self.old name)) waiter)) }
        ensures back { IfErr result (λ c. c ≡ waiter) }
        ensures err { OnErr result (self.new ≡ self.old) }
        ensures others { SameElsewhere name self.old self.new }
    {
        match self.replace(name, Slot::Home(Held::absent(name))) {
            Slot::Out(mut line) => {
                let joined = line.waiters.push(waiter);
                self.replace(name, Slot::Out(line));
                joined
            }
            Slot::Home(_) => unreachable!(),
        }
    }

    /// Marks a process whose record is out, or tells where to poke it. It takes no memory.
    pub fn nudge(&mut self, pid: Pid) -> Nudged
        ensures answer { result ≡ nudged (slot_at self.old (process pid)) }
        ensures after { self.new ≡ after_nudge self.old pid (slot_at self.old (process pid)) }
        ensures stands { slot_at self.new (process pid) ≡ marked (slot_at self.old (process pid)) }
        ensures others { SameElsewhere (process pid) self.old self.new }
    {
        if self.is_out(Name::V(pid)) {
            self.mark(pid);
            return Nudged::Marked;
        }
        match self.vprocs.get(pid) {
            Some(Slot::Home(Some(vproc))) if is_living(vproc.life) => Nudged::At(vproc.loc),
            _ => Nudged::Nobody,
        }
    }

    // Takes the record that rests under a name.
    fn take_rested(&mut self, alloc: Global, name: Name) -> Result<Held, NoMemory>
        requires { is_out self.old name ≡ false }
        ensures before { IfOk result (λ held. slot_at self.old name ≡ Home held) }
        ensures ok { OnOk result (self.new ≡ with_slot self.old name (Out nobody)) }
        ensures err { OnErr result (self.new ≡ self.old) }
    {
        match name {
            Name::V(pid) => Ok(Held::V(self.take_vproc(alloc, pid)?)),
            Name::G(pid) => Ok(Held::G(self.take_group(alloc, pid)?)),
        }
    }

    // Puts a slot at the home of a name and gives the one that stood there.
    fn swap(&mut self, name: Name, slot: NamedSlot<C>) -> Result<NamedSlot<C>, NoMemory>
        ensures before { IfOk result (λ old. old ≡ slot_at self.old name) }
        ensures ok { OnOk result (self.new ≡ with_slot self.old name slot) }
        ensures err { OnErr result (self.new ≡ self.old) }
        ensures known { is_known self.old name ≡ true → IsOk result }
    {
        match name {
            Name::V(pid) => Ok(of_vproc(swap_in(&mut self.vprocs, pid, in_vprocs(slot))?)),
            Name::G(pid) => Ok(of_group(swap_in(&mut self.groups, pid, in_groups(slot))?)),
        }
    }

    // The same for a name that was seen. It takes no memory.
    fn replace(&mut self, name: Name, slot: NamedSlot<C>) -> NamedSlot<C>
        requires { is_known self.old name ≡ true }
        ensures before { result ≡ slot_at self.old name }
        ensures after { self.new ≡ with_slot self.old name slot }
        ensures known { is_known self.new name ≡ true }
    {
        match self.swap(name, slot) {
            Ok(old) => old,
            Err(_) => unreachable!(),
        }
    }

    // Marks a process whose record is out.
    fn mark(&mut self, pid: Pid)
        requires { is_out self.old (process pid) ≡ true }
        ensures { self.new ≡ after_nudge self.old pid (slot_at self.old (process pid)) }
    {
        let name = Name::V(pid);
        match self.replace(name, Slot::Home(Held::V(None))) {
            Slot::Out(line) => {
                self.replace(
                    name,
                    Slot::Out(Line {
                        is_marked: true,
                        waiters: line.waiters,
                    }),
                );
            }
            Slot::Home(_) => unreachable!(),
        }
    }
}
