// The records that a courier holds.
ghost use Rattle.std.specs.Prelude.{◌≡◌, ◌∷◌, [], true, None, Some, slice_get, IfSome, IfErr, OnOk, OnErr};
ghost use Rattle.std.specs.List.{last_or};
ghost use Rattle.std.specs.Option.{option_copied};
ghost use Rattle.record_bag.specs.Kinds.{of_kind};
ghost use Rattle.record_bag.specs.Names.{AreRising, AllAfter, NoneAfter};

use crate::held::Held;
use group_record::Group;
use ordered_table::{Entry, Table};
use std::alloc::Global;
use unix_names::{Name, Pid};
use vproc_record::Vproc;

/// Records under their names, each present or absent, in order of name: every process before every group, then the lower id.
#[derive(Debug, Drop)]
pub struct Bag {
    pub vprocs: Table<Option<Vproc>>,
    pub groups: Table<Option<Group>>,
}

impl Bag {
    ghost use Rattle.record_bag.specs.Bags.{is_held, held_at, with_held, vproc_in, group_in, held_names, all_held, without_least, SameElsewhere};

    /// A bag in which nothing is held.
    pub fn new(alloc: Global) -> Bag
        ensures vprocs { result.vprocs ≡ [] }
        ensures groups { result.groups ≡ [] }
    {
        Bag {
            vprocs: Table::new(alloc),
            groups: Table::new(alloc),
        }
    }

    /// Whether a name is held, absent records included.
    pub fn holds(&self, name: Name) -> bool
        ensures { result ≡ is_held self.now name }
    {
        match name {
            Name::V(pid) => self.vprocs.has(pid),
            Name::G(pid) => self.groups.has(pid),
        }
    }

    /// The record of a process. None exactly where its name is not held or held as absent.
    pub fn vproc(&self, pid: Pid) -> Option<&Vproc>
        ensures { option_copied result ≡ vproc_in self.now pid }
    {
        match self.vprocs.get(pid) {
            Some(Some(vproc)) => Some(vproc),
            _ => None,
        }
    }

    /// The record of a group. None exactly where its name is not held or held as absent.
    pub fn group(&self, pid: Pid) -> Option<&Group>
        ensures { option_copied result ≡ group_in self.now pid }
    {
        match self.groups.get(pid) {
            Some(Some(group)) => Some(group),
            _ => None,
        }
    }

    /// Holds a record under a name, in place of any that was held there. A record of the other kind counts as absent.
    /// Refused for want of memory alone; the record then comes back.
    pub fn put(&mut self, name: Name, held: Held) -> Result<(), Held>
        ensures ok { OnOk result (self.new ≡ with_held self.old name held) }

        // The record is held afterwards, and under the other names the same as before.
        ensures held { OnOk result (held_at self.new name ≡ Some (of_kind name held)) }
        ensures others { OnOk result (SameElsewhere name self.old self.new) }
        ensures back { IfErr result (λ h. h ≡ of_kind name held) }
        ensures err { OnErr result (self.new ≡ self.old) }
    {
        match name {
            Name::V(pid) => {
                let vproc = match held {
                    Held::V(vproc) => vproc,
                    Held::G(_) => None,
                };
                match self.vprocs.put(pid, vproc) {
                    Ok(_) => Ok(()),
                    Err(refused) => Err(Held::V(refused)),
                }
            }
            Name::G(pid) => {
                let group = match held {
                    Held::V(_) => None,
                    Held::G(group) => group,
                };
                match self.groups.put(pid, group) {
                    Ok(_) => Ok(()),
                    Err(refused) => Err(Held::G(refused)),
                }
            }
        }
    }

    /// Holds another record under a name that is held. A record of the other kind counts as absent. It takes no memory.
    pub fn set(&mut self, name: Name, held: Held)
        requires { is_held self.old name ≡ true }
        ensures set { self.new ≡ with_held self.old name held }

        // The record is held afterwards, under the other names the same as before, and the same names.
        ensures held { held_at self.new name ≡ Some (of_kind name held) }
        ensures others { SameElsewhere name self.old self.new }
        ensures names { held_names self.new ≡ held_names self.old }
    {
        match name {
            Name::V(pid) => {
                self.vprocs.replace(pid, held.into_vproc());
            }
            Name::G(pid) => {
                self.groups.replace(pid, held.into_group());
            }
        }
    }

    /// The k-th name that is held, in order of name, from 0. None exactly where at most k are held.
    pub fn name_at(&self, k: usize) -> Option<Name>
        ensures name { result ≡ slice_get (held_names self.now) k }
        ensures order { AreRising (held_names self.now) }
    {
        let vprocs = self.vprocs.as_slice();
        let groups = self.groups.as_slice();
        if k < vprocs.len() {
            Some(Name::V(vprocs[k].pid))
        } else if k - vprocs.len() < groups.len() {
            Some(Name::G(groups[k - vprocs.len()].pid))
        } else {
            None
        }
    }

    /// The greatest name that is held. None exactly where nothing is held.
    pub fn greatest(&self) -> Option<Name>
        ensures last { result ≡ last_or None (held_names self.now) }
        ensures greatest { IfSome result (λ n. NoneAfter n (held_names self.now)) }
    {
        match self.groups.greatest() {
            Some(pid) => Some(Name::G(pid)),
            None => match self.vprocs.greatest() {
                Some(pid) => Some(Name::V(pid)),
                None => None,
            },
        }
    }

    /// Takes out the least name that is held, with its record. None exactly where nothing is held.
    pub fn take_least(&mut self) -> Option<(Name, Held)>
        ensures first { result ≡ slice_get (all_held self.old) 0 }
        ensures rest { self.new ≡ without_least self.old }
        ensures left { IfSome result (λ x. all_held self.old ≡ x ∷ all_held self.new) }
        ensures least { IfSome result (λ x. AllAfter x.0 (held_names self.new)) }
    {
        match self.vprocs.pop_first() {
            Some(Entry { pid, value }) => Some((Name::V(pid), Held::V(value))),
            None => match self.groups.pop_first() {
                Some(Entry { pid, value }) => Some((Name::G(pid), Held::G(value))),
                None => None,
            },
        }
    }
}
