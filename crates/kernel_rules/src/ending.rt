// The end of a process (POSIX.1-2017, XSH _Exit).
ghost use Rattle.std.specs.Prelude.{◌≡◌, ◌∷◌, [], ◌<◌, length, slice_index_or, slice_set, OnOk, OnErr};
ghost use Rattle.process_table.specs.Changes.{receives, received};
ghost use Rattle.kernel_rules.specs.Ending.{ignores_children, vanishes, with_end, without_children, rows_left, sent_to_parent, after_end};
ghost use Rattle.kernel_rules.specs.MethodEnding.{sent_with};

use crate::orphans::{groups_at_risk, keep_left};
use process_table::{Change, ProcessTable, Row, find_row, is_among};
use unix_names::{NoMemory, Pid, SYSTEM, Signal, WaitStatus};

fn ignores_children(parent: Option<Row>) -> bool
    ensures { result ≡ ignores_children parent }
{
    match parent {
        None => false,
        Some(parent) => parent.sig.ignored.has(Signal::Chld),
    }
}

/// Whether nobody waits for a process: its parent is the system process, or ignores the signal of a child's end.
fn vanishes(rows: &[Row], row: &Row) -> bool
    ensures { result ≡ vanishes rows.now row.now }
{
    row.parent == SYSTEM || ignores_children(find_row(rows, row.parent))
}

/// Ends the row of a process, or removes it where nobody waits for it.
fn end_row(table: &mut ProcessTable, row: &Row, status: WaitStatus)
    ensures { table.new ≡ with_end table.old row.now status }
{
    let removes = vanishes(table.rows(), row);
    table.change_row(row.pid, &Change::Ended(status));
    table.remove_row(row.pid, removes);
}

/// Removes each ended child of a process, and gives the living ones to the system process.
fn leave_children(table: &mut ProcessTable, pid: Pid)
    ensures { table.new ≡ without_children pid table.old }
{
    table.remove_ended_children(pid);
    table.give_up_children(pid);
}

/// The first two effects of an end: on the row, and on the children.
fn leave(table: &mut ProcessTable, row: &Row, status: WaitStatus)
    ensures { table.new ≡ rows_left table.old row.now status }
{
    end_row(table, row, status);
    leave_children(table, row.pid);
}

/// Generates a child's signal for its parent.
pub fn signal_parent(table: &mut ProcessTable, child: &Row)
    ensures { table.new ≡ received (sent_to_parent child.now) table.old }
{
    table.change_row(child.parent, &Change::Signalled(Signal::Chld));
}

/// What an end sends to a row, where these groups are newly orphaned.
fn sent_with(ended: &Row, groups: &[Pid], row: &Row) -> &'static [Signal]
    ensures { result.now ≡ sent_with ended.now groups.now row.now }
{
    match (row.pid == ended.parent, is_among(groups, row.group)) {
        (true, true) => &[Signal::Chld, Signal::Hup, Signal::Cont],
        (true, false) => &[Signal::Chld],
        (false, true) => &[Signal::Hup, Signal::Cont],
        (false, false) => &[],
    }
}

/// Generates the signals of an end for the row at a place.
fn reach(table: &mut ProcessTable, at: usize, ended: &Row, groups: &[Pid])
    requires { at < length table.old }
    ensures { (d : _) → table.new ≡ slice_set table.old at (receives (sent_with ended.now groups.now) (slice_index_or table.old at d)) }
{
    let signals = sent_with(ended, groups, &table.rows()[at]);
    table.receive(at, signals);
}

/// Generates the signals of an end: for the parent, and for the members of these groups.
fn signal_end(table: &mut ProcessTable, ended: &Row, groups: &[Pid])
    ensures { table.new ≡ received (sent_with ended.now groups.now) table.old }
{
    for at in 0..table.rows().len() {
        reach(table, at, ended, groups);
    }
}

/// Ends a process: its row, its children, the signal for its parent, and those for the groups that it leaves orphaned.
pub fn end(table: &mut ProcessTable, row: &Row, status: WaitStatus) -> Result<(), NoMemory>
    ensures ok { OnOk result (table.new ≡ after_end table.old row.now status) }
    ensures err { OnErr result (table.new ≡ table.old) }
{
    let alloc = table.alloc();
    let mut groups = groups_at_risk(alloc, table.rows(), row.pid)?;
    leave(table, row, status);
    keep_left(&mut groups, table.rows());
    signal_end(table, row, groups.as_slice());
    Ok(())
}
