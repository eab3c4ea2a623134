// Rows that go, and children that are given up.
ghost use Rattle.std.specs.Prelude.{◌≡◌, ◌&&◌, not, map, filter};
ghost use Rattle.process_table.specs.Rows.{is_pid, is_ended_at, is_ended_child};
ghost use Rattle.process_table.specs.Changes.{given_up};

use crate::rows::Row;
use crate::table::ProcessTable;
use unix_names::{Pid, SYSTEM, is_living};

fn give_up(row: &mut Row, pid: Pid)
    ensures { row.new ≡ given_up pid row.old }
{
    if row.parent == pid {
        row.parent = SYSTEM;
    }
}

#[tactic(auto, using(std::proofs::lemmas::List::Edits::map_over_more))]
fn give_up_every(rows: &mut Vec<Row>, pid: Pid)
    ensures { rows.new.items ≡ map (given_up pid) rows.old.items }
{
    for row in rows.iter_mut() {
        give_up(row, pid);
    }
}

impl ProcessTable {
    /// Removes the row of a process, where it is to be removed.
    pub fn remove_row(&mut self, pid: Pid, removes: bool)
        ensures { self.new ≡ filter (λ c. not (is_pid pid c && removes)) self.old }
    {
        self.rows.retain(|row| !(row.pid == pid && removes));
        let alloc = *self.rows.allocator();
        self.index.forget(alloc);
    }

    /// Removes the row of a process that has ended.
    pub fn remove_ended(&mut self, pid: Pid)
        ensures { self.new ≡ filter (λ c. not (is_ended_at pid c)) self.old }
    {
        self.rows
            .retain(|row| !(row.pid == pid && !is_living(row.life)));
        let alloc = *self.rows.allocator();
        self.index.forget(alloc);
    }

    /// Removes each ended child of a process.
    pub fn remove_ended_children(&mut self, pid: Pid)
        ensures { self.new ≡ filter (λ c. not (is_ended_child pid c)) self.old }
    {
        self.rows
            .retain(|row| !(row.parent == pid && !is_living(row.life)));
        let alloc = *self.rows.allocator();
        self.index.forget(alloc);
    }

    /// Gives each child of a process to the system process.
    pub fn give_up_children(&mut self, pid: Pid)
        ensures { self.new ≡ map (given_up pid) self.old }
    {
        give_up_every(&mut self.rows, pid);
        let alloc = *self.rows.allocator();
        self.index.forget(alloc);
    }
}
