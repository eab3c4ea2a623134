// The rows of the table, and what is looked up in it.
ghost use Rattle.std.specs.Prelude.{◌≡◌};
ghost use Rattle.process_table.specs.Rows.{row_of, row_named, child_count, is_stopped, is_among};

use signal_state::Sig;
use unix_names::{Life, Pid, WaitStatus};

/// A process as the kernel knows it, from its fork until its parent has waited for it.
#[derive(Clone, Copy, Debug, PartialEq, Eq)]
pub struct Row {
    pub pid: Pid,
    /// The process that forked it, or the system process.
    pub parent: Pid,
    pub group: Pid,
    pub session: Pid,
    /// The user, who is the real, effective and saved one at once.
    pub uid: u32,
    pub life: Life,
    /// A stop or a continuing that `waitpid` has not reported yet.
    pub change: Option<WaitStatus>,
    /// Whether it has done exec since its fork.
    pub execed: bool,
    pub sig: Sig,
}

/// The row of a process.
pub fn find_row(rows: &[Row], pid: Pid) -> Option<Row>
    ensures { result ≡ row_of rows.now pid }
{
    rows.iter().copied().find(|row| row.pid == pid)
}

/// The row that a call's number names, where 0 is the caller.
pub fn find_named(rows: &[Row], caller: &Row, number: u32) -> Option<Row>
    ensures { result ≡ row_named rows.now caller.now number }
{
    if number == 0 {
        Some(*caller)
    } else {
        find_row(rows, Pid(number))
    }
}

/// How many children a process has, ended ones too.
pub fn count_children(rows: &[Row], parent: Pid) -> usize
    ensures { result ≡ child_count rows.now parent }
{
    rows.iter().filter(|row| row.parent == parent).count()
}

/// Whether a process is stopped.
pub fn is_stopped(life: Life) -> bool
    ensures { result ≡ is_stopped life }
{
    matches!(life, Life::Stopped)
}

/// Whether a process or a group is one of these.
pub fn is_among(pids: &[Pid], pid: Pid) -> bool
    ensures { result ≡ is_among pids.now pid }
{
    pids.iter().any(|other| *other == pid)
}
