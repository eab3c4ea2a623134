// What stands at the home of a record.
ghost use Rattle.std.specs.Prelude.{◌≡◌, false, IfOk, OnOk, OnErr, IsOk, IsSome};
ghost use Rattle.ordered_table.specs.Entries.{value_at, with_value};
ghost use Rattle.record_table.specs.Places.{nobody, in_vprocs, in_groups, of_vproc, of_group, place_in, is_out_slot};
ghost use Rattle.record_table.specs.declared.slot.Slot.TheVariants.{Home, Out};

use group_record::Group;
use ordered_table::{Queue, Table};
use record_bag::Held;
use std::alloc::Global;
use unix_names::{NoMemory, Pid};
use vproc_record::Vproc;

/// The place of a record at its home: the record rests there, or it is out.
#[derive(Debug, Drop)]
pub enum Slot<R, L> {
    Home(R),
    Out(L),
}

/// Those who wait for the record of a process that is out, in order, and whether the process is to be poked once its record rests.
#[derive(Debug, Drop)]
pub struct Line<C> {
    pub is_marked: bool,
    pub waiters: Queue<C>,
}

/// Where the record of a process is.
pub type VprocSlot<C> = Slot<Option<Vproc>, Line<C>>;

/// Where the record of a group is. Groups are not poked, so there is no mark.
pub type GroupSlot<C> = Slot<Option<Group>, Queue<C>>;

/// Where the record of a name is.
pub type NamedSlot<C> = Slot<Held, Line<C>>;

/// A line without a mark, in which nobody waits.
pub fn nobody<C>(alloc: Global) -> Line<C>
    ensures { result ≡ nobody }
{
    Line {
        is_marked: false,
        waiters: Queue::new(alloc),
    }
}

/// The slot as one of a process. A group's record counts as absent.
pub fn in_vprocs<C: Drop>(slot: NamedSlot<C>) -> VprocSlot<C>
    ensures { result ≡ in_vprocs slot }
{
    match slot {
        Slot::Home(held) => Slot::Home(held.into_vproc()),
        Slot::Out(line) => Slot::Out(line),
    }
}

/// The slot as one of a group. A process's record counts as absent.
pub fn in_groups<C: Drop>(slot: NamedSlot<C>) -> GroupSlot<C>
    ensures { result ≡ in_groups slot }
{
    match slot {
        Slot::Home(held) => Slot::Home(held.into_group()),
        Slot::Out(line) => Slot::Out(line.waiters),
    }
}

/// The slot of a process under its name.
pub fn of_vproc<C: Drop>(slot: VprocSlot<C>) -> NamedSlot<C>
    ensures { result ≡ of_vproc slot }
{
    match slot {
        Slot::Home(vproc) => Slot::Home(Held::V(vproc)),
        Slot::Out(line) => Slot::Out(line),
    }
}

/// The slot of a group under its name.
pub fn of_group<C: Drop>(slot: GroupSlot<C>) -> NamedSlot<C>
    ensures { result ≡ of_group slot }
{
    match slot {
        Slot::Home(group) => Slot::Home(Held::G(group)),
        Slot::Out(waiters) => Slot::Out(Line {
            is_marked: false,
            waiters,
        }),
    }
}

/// Puts a slot at an id's home and gives the one that stood there. Where one stood there already, no memory is taken.
pub fn swap_in<R: Drop, L: Drop>(
    slots: &mut Table<Slot<Option<R>, L>>,
    pid: Pid,
    slot: Slot<Option<R>, L>,
) -> Result<Slot<Option<R>, L>, NoMemory>
    ensures before { IfOk result (λ old. old ≡ place_in slots.old pid) }
    ensures ok { OnOk result (slots.new ≡ with_value slots.old pid slot) }
    ensures err { OnErr result (slots.new ≡ slots.old) }
    ensures known { IsSome (value_at slots.old pid) → IsOk result }
{
    match slots.put(pid, slot) {
        Ok(Some(old)) => Ok(old),
        Ok(None) => Ok(Slot::Home(None)),
        Err(_) => Err(NoMemory),
    }
}

/// Takes the record that rests at an id's home; this line is there then.
pub fn leave<R: Drop, L: Drop>(
    slots: &mut Table<Slot<Option<R>, L>>,
    pid: Pid,
    line: L,
) -> Result<Option<R>, NoMemory>
    requires { is_out_slot (place_in slots.old pid) ≡ false }
    ensures before { IfOk result (λ rested. place_in slots.old pid ≡ Home rested) }
    ensures ok { OnOk result (slots.new ≡ with_value slots.old pid (Out line)) }
    ensures err { OnErr result (slots.new ≡ slots.old) }
{
    match slots.put(pid, Slot::Out(line)) {
        Ok(Some(Slot::Home(rested))) => Ok(rested),
        Ok(Some(Slot::Out(_))) => unreachable!(),
        Ok(None) => Ok(None),
        Err(_) => Err(NoMemory),
    }
}
