// What is known of a table of processes beside its rows, so that few of them need be looked at.
ghost use Rattle.std.specs.Prelude.{◌≡◌, ◌++◌, ◌∷◌, [], List};
ghost use Rattle.process_table.specs.declared.rows.Row.{Row as TheRow};
ghost use Rattle.process_table.specs.MethodIndex.{IsRising, place, is_next, is_next as is_next_of, is_same_place, Knows, forgotten};
ghost use Rattle.process_table.specs.Rows.{row_of};

use crate::rows::Row;
use ordered_table::{Table, join};
use std::alloc::Global;
use unix_names::{Pid, Seq, is_living};

/// What is known of a table of processes beside its rows.
#[derive(Debug, Drop)]
pub(crate) struct Index {
    /// Whether the pids rise from row to row, so that a row is found by halves. Where they do not, nothing is known.
    pub(crate) rises: bool,
    /// The children of each process but the system process, as they were forked. Who has gone may still be listed.
    pub(crate) children: Table<Seq<Pid>>,
    /// Of the groups that were asked for, whether they are orphaned.
    pub(crate) orphaned: Table<bool>,
}

/// How many of the first rows have a lesser pid.
pub(crate) fn place(rows: &[Row], pid: Pid) -> usize
    requires { IsRising rows.now }
    ensures { result ≡ place rows.now pid }
{
    rows.partition_point(|row| row.pid.0 < pid.0)
}

/// The row of a process, found by halves.
pub(crate) fn find_rising(rows: &[Row], pid: Pid) -> Option<Row>
    requires { IsRising rows.now }
    ensures { result ≡ row_of rows.now pid }
{
    match rows.get(place(rows, pid)) {
        Some(row) if row.pid == pid => Some(*row),
        _ => None,
    }
}

/// Whether a pid is above that of the last row.
pub(crate) fn is_next(rows: &[Row], pid: Pid) -> bool
    ensures { result ≡ is_next rows.now pid }
{
    match rows.last() {
        Some(last) => last.pid.0 < pid.0,
        None => true,
    }
}

/// Whether a row has kept its group and its session, and lives as before.
pub(crate) fn is_same_place(before: &Row, now: &Row) -> bool
    ensures { result ≡ is_same_place before.now now.now }
{
    before.group == now.group
        && before.session == now.session
        && is_living(before.life) == is_living(now.life)
}

impl Index {
    /// The index of a table without rows.
    pub(crate) fn new(alloc: Global) -> Index
        ensures { Knows result [] }
    {
        Index {
            rises: true,
            children: Table::new(alloc),
            orphaned: Table::new(alloc),
        }
    }

    /// Forgets which groups are orphaned, since rows went, or changed their places.
    pub(crate) fn forget(&mut self, alloc: Global)
        ensures { self.new ≡ forgotten self.old }
    {
        self.orphaned = Table::new(alloc);
    }

    /// A row has come as the last one. Where its pid is not above the one before it, and where memory runs out, nothing is known any more.
    pub(crate) fn add(&mut self, alloc: Global, row: &Row, is_next: bool)
        ensures { (rows : List TheRow) → Knows self.old rows → is_next ≡ is_next_of rows row.now.pid → Knows self.new (rows ++ row.now ∷ []) }
    {
        self.forget(alloc);
        self.rises = self.rises
            && is_next
            && join(alloc, &mut self.children, row.parent, row.pid).is_ok();
    }
}
