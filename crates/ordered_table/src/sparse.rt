// A table of values by process id, for values that go and come back.
ghost use Rattle.std.specs.Prelude.{◌≡◌, [], IfErr, IfOk, OnOk, OnErr, IsSome, IsOk};
ghost use Rattle.std.specs.Option.{option_copied};
ghost use Rattle.ordered_table.specs.Entries.{value_at, with_value, without};

use crate::entries::{Entry, put, replace_at, search};
use std::alloc::Global;
use std::marker::Model;
use unix_names::Pid;

/// Values by process id, in rising order of id, each id once. Contracts see the list of the entries that have a value.
///
/// An id whose value was taken out keeps its place, empty: taking a value out moves no other, nor does putting one back. So the table is as long as there are ids that ever had a value.
#[derive(Debug, Drop)]
pub struct SparseTable<T> {
    entries: Vec<Entry<Option<T>>>,
}

impl<T> Model for SparseTable<T> {
    ghost use Rattle.std.specs.Prelude.{List};
    ghost use Rattle.ordered_table.specs.declared.entries.Entry.{Entry as TheEntry};

    ghost Value = { List (TheEntry T) };

    ghost use Rattle.ordered_table.specs.Entries.{IsRising};
    ghost use Rattle.ordered_table.specs.Sparse.{present};

    ghost view = { λ t. present t.entries.items };

    ghost invariant = { λ t. IsRising t.entries.items };
}

impl<T> SparseTable<T> {
    /// A table without values.
    pub fn new(alloc: Global) -> SparseTable<T>
        ensures { result ≡ [] }
    {
        SparseTable {
            entries: Vec::new(alloc),
        }
    }

    /// The value of an id.
    #[tactic(auto, using(crate::proofs::SparseLaws::present_laws))]
    pub fn get(&self, pid: Pid) -> Option<&T>
        ensures { option_copied result ≡ value_at self.now pid }
    {
        match search(self.entries.as_slice(), pid) {
            Ok(at) => self.entries[at].value.as_ref(),
            Err(_) => None,
        }
    }

    /// Gives the id a value, and returns the one that it had. A value that finds no memory comes back; where the id has a place, no memory is taken.
    #[tactic(auto, using(crate::proofs::SparseLaws::present_laws))]
    pub fn put(&mut self, pid: Pid, value: T) -> Result<Option<T>, T>
        ensures before { IfOk result (λ old. old ≡ value_at self.old pid) }
        ensures ok { OnOk result (self.new ≡ with_value self.old pid value) }
        ensures back { IfErr result (λ v. v ≡ value) }
        ensures err { OnErr result (self.new ≡ self.old) }
        ensures known { IsSome (value_at self.old pid) → IsOk result }
    {
        match put(&mut self.entries, pid, Some(value)) {
            Ok(old) => Ok(old.flatten()),
            Err(Some(value)) => Err(value),
            Err(None) => unreachable!(),
        }
    }

    /// Takes the value of an id out. None exactly where it has none. No other value moves.
    #[tactic(auto, using(crate::proofs::SparseLaws::present_laws))]
    pub fn remove(&mut self, pid: Pid) -> Option<T>
        ensures value { result ≡ value_at self.old pid }
        ensures rest { self.new ≡ without self.old pid }
    {
        match search(self.entries.as_slice(), pid) {
            Ok(at) => {
                let old = replace_at(&mut self.entries, at, Entry { pid, value: None });
                let Entry { pid: _, value } = old;
                value
            }
            Err(_) => None,
        }
    }
}
