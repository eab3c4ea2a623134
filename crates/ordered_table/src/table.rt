// A table of values by process id.
ghost use Rattle.std.specs.Prelude.{◌≡◌, ◌<◌, ◌≢◌, ◌↔◌, [], ◌∷◌, length, IsTrue, IfSome, IfNone, IfErr, IfOk, OnOk, OnErr, IsSome, IsOk, Some, None};
ghost use Rattle.std.specs.List.{last_or};
ghost use Rattle.std.specs.Option.{option_copied, option_copied_mut};
ghost use Rattle.std.specs.Borrow.{sem};
ghost use Rattle.ordered_table.specs.Entries.{value_at, with_value, without, has_value, pids_of, AllUpTo, AllAbove, IsRising, SameElsewhere, IsReplacedAt};
ghost use Rattle.ordered_table.specs.Lends.{lends_found, lends_value};
ghost use Rattle.ordered_table.specs.MethodPlaces.{IsFoundAt};

use crate::entries::{Entry, greatest, pop_first, remove, replace, replace_value_at, search};
use std::alloc::{AllocFailed, Global};
use std::marker::Model;
use std::mem;
use unix_names::Pid;

/// Values by process id, in rising order of id, each id once. Contracts see the list of entries.
///
/// A look-up takes a number of steps that is the logarithm of the table's length.
#[derive(Debug, Drop)]
pub struct Table<T> {
    entries: Vec<Entry<T>>,
}

impl<T> Model for Table<T> {
    ghost use Rattle.std.specs.Prelude.{List};
    ghost use Rattle.ordered_table.specs.declared.entries.Entry.{Entry as TheEntry};

    ghost Value = { List (TheEntry T) };

    ghost use Rattle.ordered_table.specs.Entries.{IsRising};

    ghost view = { λ t. t.entries.items };

    ghost invariant = { λ t. IsRising t.entries.items };
}

impl<T> Table<T> {
    /// A table without values.
    pub fn new(alloc: Global) -> Table<T>
        ensures { result ≡ [] }
    {
        Table {
            entries: Vec::new(alloc),
        }
    }

    /// The entries in rising order of id.
    pub fn as_slice(&self) -> &[Entry<T>]
        ensures entries { result.now ≡ self.now }
        ensures rising { IsRising self.now }
    {
        self.entries.as_slice()
    }

    /// How many ids have a value.
    pub fn len(&self) -> usize
        ensures { result ≡ length self.now }
    {
        self.entries.len()
    }

    /// Whether no id has a value.
    pub fn is_empty(&self) -> bool
        ensures { IsTrue result ↔ (self.now ≡ []) }
    {
        self.entries.is_empty()
    }

    /// The value of an id.
    pub fn get(&self, pid: Pid) -> Option<&T>
        ensures { option_copied result ≡ value_at self.now pid }
    {
        match search(self.entries.as_slice(), pid) {
            Ok(at) => Some(&self.entries[at].value),
            Err(_) => None,
        }
    }

    /// The value of an id, to be changed where it lies. None exactly where the id has none; the table then stays as it is. It takes no memory.
    pub fn get_mut(&mut self, pid: Pid) -> Option<&mut T>
        ensures* writes_back { sem 𝓛 (lends_value T.row self.entry pid result) }
        ensures value { option_copied_mut result ≡ value_at self.old pid }
        ensures rising { IsRising self.old }
    {
        match search(self.entries.as_slice(), pid) {
            Ok(at) => Some(self.value_mut(pid, at)),
            Err(_) => None,
        }
    }

    // The value of an id, whose entry stands at this place.
    fn value_mut(&mut self, pid: Pid, at: usize) -> &mut T
        requires { IsFoundAt self.old pid at }
        ensures* writes_back { sem 𝓛 (lends_found T.row self.entry pid result) }
        ensures value { value_at self.old pid ≡ Some result.now }
        ensures rising { IsRising self.old }
    {
        &mut self.entries[at].value
    }

    /// Whether an id has a value.
    pub fn has(&self, pid: Pid) -> bool
        ensures { result ≡ has_value self.now pid }
    {
        self.get(pid).is_some()
    }

    /// The greatest id that has a value. None exactly where none has.
    pub fn greatest(&self) -> Option<Pid>
        ensures last { result ≡ last_or None (pids_of self.now) }
        ensures greatest { IfSome result (λ p. AllUpTo p self.now) }
    {
        greatest(self.entries.as_slice())
    }

    /// Gives the id a value, and returns the one that it had. A value that finds no memory comes back; where the id had a value, no memory is taken.
    pub fn put(&mut self, pid: Pid, value: T) -> Result<Option<T>, T>
        ensures before { IfOk result (λ old. old ≡ value_at self.old pid) }
        ensures ok { OnOk result (self.new ≡ with_value self.old pid value) }
        ensures known { IsSome (value_at self.old pid) → IsOk result }

        // The value is found afterwards, and the other ids keep theirs.
        ensures found { OnOk result (value_at self.new pid ≡ Some value) }
        ensures others { OnOk result (SameElsewhere pid self.old self.new) }
        ensures back { IfErr result (λ v. v ≡ value) }
        ensures err { OnErr result (self.new ≡ self.old) }
    {
        match search(self.entries.as_slice(), pid) {
            Ok(at) => Ok(Some(mem::replace(self.value_mut(pid, at), value))),
            Err(at) => match self.entries.insert(at, Entry { pid, value }) {
                Ok(()) => Ok(None),
                Err(refused) => {
                    let AllocFailed { value: entry } = refused;
                    let Entry { pid: _, value } = entry;
                    Err(value)
                }
            },
        }
    }

    /// Gives an id that has a value another one, and returns the old one. It takes no memory.
    pub fn replace(&mut self, pid: Pid, value: T) -> T
        requires { IsSome (value_at self.old pid) }
        ensures before { value_at self.old pid ≡ Some result }
        ensures after { self.new ≡ with_value self.old pid value }
        ensures found { value_at self.new pid ≡ Some value }
        ensures others { SameElsewhere pid self.old self.new }
        ensures ids { pids_of self.new ≡ pids_of self.old }
    {
        replace(&mut self.entries, pid, value)
    }

    /// Gives the id at a place another value, and returns the old one. It takes no memory.
    pub fn replace_at(&mut self, at: usize, value: T) -> T
        requires { at < length self.old }
        ensures { IsReplacedAt at self.old self.new result value }
    {
        replace_value_at(&mut self.entries, at, value)
    }

    /// Takes the value of an id out. None exactly where it has none.
    pub fn remove(&mut self, pid: Pid) -> Option<T>
        ensures value { result ≡ value_at self.old pid }
        ensures rest { self.new ≡ without self.old pid }
        ensures gone { value_at self.new pid ≡ None }
        ensures others { SameElsewhere pid self.old self.new }
    {
        remove(&mut self.entries, pid)
    }

    /// Takes the entry of the least id out. None exactly where there is none.
    pub fn pop_first(&mut self) -> Option<Entry<T>>
        ensures some { IfSome result (λ e. self.old ≡ e ∷ self.new) }
        ensures none { IfNone result (self.old ≡ []) }
        ensures none_new { IfNone result (self.new ≡ []) }
        ensures least { IfSome result (λ e. AllAbove e.pid self.new) }
    {
        pop_first(&mut self.entries)
    }
}
