// Marks of the processes outside a group: the parent of a member who has none need not be looked up.
ghost use Rattle.std.specs.Prelude.{◌≡◌, ◌<◌};
ghost use Rattle.process_table.specs.MethodMarks.{slot, is_marked, AreMarked};

use crate::rows::Row;
use unix_names::Pid;

/// How many marks there are.
pub(crate) const SLOTS: usize = 4096;

/// Where the mark of a process in a session stands. Several may share one, which costs time alone.
#[tactic(auto, unfolding(crate::specs::MethodMarks::slot))]
fn slot_of(pid: Pid, session: Pid) -> usize
    ensures value { result ≡ slot pid session }
    ensures within { result < SLOTS }
{
    (pid.0 as usize % SLOTS + session.0 as usize % SLOTS * 1009) % SLOTS
}

/// Marks each process that is of another group.
pub(crate) fn marks_of(rows: &[Row], group: Pid) -> [bool; SLOTS]
    ensures { AreMarked result rows.now group }
{
    let mut marks = [false; SLOTS];
    for row in rows {
        if row.group != group {
            marks[slot_of(row.pid, row.session)] = true;
        }
    }
    marks
}

/// Whether a process in a session is marked.
pub(crate) fn is_marked(marks: &[bool; SLOTS], pid: Pid, session: Pid) -> bool
    ensures { result ≡ is_marked marks.now pid session }
{
    marks[slot_of(pid, session)]
}
