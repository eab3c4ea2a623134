// The table of processes: its rows, which contracts see, with an index that they do not.
ghost use Rattle.std.specs.Prelude.{◌≡◌, ◌++◌, ◌∷◌, [], IfSome, OnOk, OnErr};
ghost use Rattle.process_table.specs.Rows.{row_of, AreChildren};
ghost use Rattle.process_table.specs.Orphans.{is_orphaned};

use crate::index::{Index, find_rising, is_next};
use crate::orphans::is_orphaned;
use crate::rows::{Row, find_row};
use std::alloc::Global;
use std::marker::Model;
use unix_names::{NoMemory, Pid, SYSTEM};

/// A table of processes, which contracts see as the list of its rows in order of creation.
///
/// Where the pids rise from row to row, a row is found by halves, and the children of a process without a look at others.
#[derive(Debug, Drop)]
pub struct ProcessTable {
    pub(crate) rows: Vec<Row>,
    pub(crate) index: Index,
}

impl Model for ProcessTable {
    ghost use Rattle.std.specs.Prelude.{List};
    ghost use Rattle.process_table.specs.declared.rows.Row.{Row};

    ghost Value = { List Row };

    ghost use Rattle.process_table.specs.MethodIndex.{Knows};

    ghost view = { λ table. table.rows.items };

    ghost invariant = { λ table. Knows table.index table.rows.items };
}

impl ProcessTable {
    /// The table without rows.
    pub fn new(alloc: Global) -> ProcessTable
        ensures { result ≡ [] }
    {
        ProcessTable {
            rows: Vec::new(alloc),
            index: Index::new(alloc),
        }
    }

    /// A row joins the end.
    pub fn push(&mut self, row: Row) -> Result<(), NoMemory>
        ensures ok { OnOk result (self.new ≡ self.old ++ row ∷ []) }
        ensures err { OnErr result (self.new ≡ self.old) }
    {
        let alloc = *self.rows.allocator();
        let is_next = is_next(&self.rows, row.pid);
        self.rows.push(row)?;
        self.index.add(alloc, &row, is_next);
        Ok(())
    }

    /// The allocator that the rows are of.
    pub fn alloc(&self) -> Global {
        *self.rows.allocator()
    }

    /// The rows in order of creation.
    pub fn rows(&self) -> &[Row]
        ensures { result.now ≡ self.now }
    {
        self.rows.as_slice()
    }

    /// The row of a process.
    pub fn find(&self, pid: Pid) -> Option<Row>
        ensures { result ≡ row_of self.now pid }
    {
        if self.index.rises {
            find_rising(&self.rows, pid)
        } else {
            find_row(&self.rows, pid)
        }
    }

    /// Processes among which are all children of a process. None where they are not known, and for the system process.
    pub fn children(&self, pid: Pid) -> Option<&[Pid]>
        ensures { IfSome result (λ pids. AreChildren self.now pid pids.now) }
    {
        if !self.index.rises || pid == SYSTEM {
            return None;
        }
        match self.index.children.get(pid) {
            Some(pids) => Some(pids.as_slice()),
            None => Some(&[]),
        }
    }

    /// Whether the parent of each living member of a group is itself a member or is in another session.
    pub fn is_orphaned(&self, group: Pid) -> bool
        ensures { result ≡ is_orphaned self.now group }
    {
        match self.noted(group) {
            Some(orphaned) => orphaned,
            None => is_orphaned(&self.rows, group),
        }
    }

    /// Whether a group is noted as orphaned, or as not orphaned.
    fn noted(&self, group: Pid) -> Option<bool>
        ensures { IfSome result (λ b. b ≡ is_orphaned self.now group) }
    {
        if self.index.rises {
            self.index.orphaned.get(group).copied()
        } else {
            None
        }
    }

    /// Finds out whether a group is orphaned, and notes it, so that it need not be found out again while no row comes, goes, ends or changes its group or parent.
    pub fn note_orphaned(&mut self, group: Pid)
        ensures { self.new ≡ self.old }
    {
        if self.index.rises && self.noted(group).is_none() {
            let orphaned = is_orphaned(&self.rows, group);
            let _ = self.index.orphaned.put(group, orphaned);
        }
    }
}
