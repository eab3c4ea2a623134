// Changes of one process's row.
ghost use Rattle.std.specs.Prelude.{◌≡◌, ◌<◌, ◌∷◌, [], map, length, slice_index_or, slice_set, IsTrue};
ghost use Rattle.signal_state.specs.Sig.{IsFixed};
ghost use Rattle.process_table.specs.Changes.{receives, changed_at, IsAllowed};
ghost use Rattle.process_table.specs.MethodChanges.{changed};
ghost use Rattle.process_table.specs.MethodIndex.{IsRising, AllStay, is_same_place};

use crate::index::{is_same_place, place};
use crate::rows::Row;
use crate::table::ProcessTable;
use unix_names::{Act, Life, Pid, SigSet, Signal, WaitStatus, is_living};

/// What changes in the row of one process.
#[derive(Clone, Copy, Debug, PartialEq, Eq)]
pub enum Change {
    Delivered(Signal),
    Stopped(Signal),
    Continued,
    Ended(WaitStatus),
    Reported,
    Execed,
    Regrouped(Pid),
    Leading,
    Acting(Signal, Act),
    Masked(SigSet),
    Signalled(Signal),
}

fn set_action(row: &mut Row, signal: Signal, act: Act)
    requires { ¬ IsFixed signal }
    ensures { row.new ≡ changed (Change.Acting signal act) row.old }
{
    let _ = row.sig.set_action(signal, act);
}

/// Generates a signal for a row, if it lives.
fn receive(row: &mut Row, signal: Signal)
    ensures { row.new ≡ receives (λ c. signal ∷ []) row.old }
{
    if is_living(row.life) {
        row.sig.generate(signal);
    }
}

/// Changes a row.
fn apply(row: &mut Row, change: &Change)
    requires { IsAllowed change.now }
    ensures { row.new ≡ changed change.now row.old }
{
    match *change {
        Change::Delivered(signal) => row.sig.deliver(signal),
        Change::Stopped(signal) => {
            row.life = Life::Stopped;
            row.change = Some(WaitStatus::Stopped(signal));
            row.sig.stop(signal);
        }
        Change::Continued => {
            row.life = Life::Runs;
            row.change = Some(WaitStatus::Continued);
            row.sig.resume();
        }
        Change::Ended(status) => {
            row.life = Life::Ended(status);
            row.change = None;
        }
        Change::Reported => row.change = None,
        Change::Execed => {
            row.execed = true;
            row.sig.after_exec();
        }
        Change::Regrouped(group) => row.group = group,
        Change::Leading => {
            row.group = row.pid;
            row.session = row.pid;
        }
        Change::Acting(signal, act) => set_action(row, signal, act),
        Change::Masked(set) => {
            let _ = row.sig.set_mask(set);
        }
        Change::Signalled(signal) => receive(row, signal),
    }
}

/// Changes a row if it is that of a process.
#[tactic(auto, using(crate::proofs::ChangeLaws::changed_here, crate::proofs::ChangeLaws::changed_elsewhere))]
fn apply_at(row: &mut Row, pid: Pid, change: &Change)
    requires { IsAllowed change.now }
    ensures { row.new ≡ changed_at pid change.now row.old }
{
    if row.pid == pid {
        apply(row, change);
    }
}

/// Changes the row of a process, which is looked for in every row.
#[tactic(auto, using(std::proofs::lemmas::List::Edits::map_over_more))]
fn change_every(rows: &mut Vec<Row>, pid: Pid, change: &Change)
    requires { IsAllowed change.now }
    ensures { rows.new.items ≡ map (changed_at pid change.now) rows.old.items }
{
    for row in rows.iter_mut() {
        apply_at(row, pid, change);
    }
}

/// Changes the row at a place, if it is that of a process, and tells whether it keeps its group and session and lives as before.
fn change_at(rows: &mut Vec<Row>, at: usize, pid: Pid, change: &Change) -> bool
    requires allowed { IsAllowed change.now }
    requires within { at < length rows.old.items }
    ensures rows { (d : _) → rows.new.items ≡ slice_set rows.old.items at (changed_at pid change.now (slice_index_or rows.old.items at d)) }
    ensures stays { (d : _) → result ≡ is_same_place (slice_index_or rows.old.items at d) (changed_at pid change.now (slice_index_or rows.old.items at d)) }
{
    let row = &mut rows[at];
    let before = *row;
    apply_at(row, pid, change);
    is_same_place(&before, row)
}

/// Changes the row of a process, which is found by halves, and tells whether all rows keep their places.
fn change_found(rows: &mut Vec<Row>, pid: Pid, change: &Change) -> bool
    requires allowed { IsAllowed change.now }
    requires rising { IsRising rows.old.items }
    ensures rows { rows.new.items ≡ map (changed_at pid change.now) rows.old.items }
    ensures stays { IsTrue result → AllStay (changed_at pid change.now) rows.old.items }
{
    let at = place(rows, pid);
    if at < rows.len() {
        change_at(rows, at, pid, change)
    } else {
        true
    }
}

impl ProcessTable {
    /// Changes the row of a process.
    pub fn change_row(&mut self, pid: Pid, change: &Change)
        requires { IsAllowed change.now }
        ensures { self.new ≡ map (changed_at pid change.now) self.old }
    {
        if !self.index.rises {
            change_every(&mut self.rows, pid, change);
        } else if !change_found(&mut self.rows, pid, change) {
            let alloc = *self.rows.allocator();
            self.index.forget(alloc);
        }
    }
}
