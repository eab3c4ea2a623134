// Orphaned process groups (POSIX.1-2017, XBD chapter 3, Orphaned Process Group).
ghost use Rattle.std.specs.Prelude.{◌≡◌};
ghost use Rattle.std.specs.List.{list_any};
ghost use Rattle.process_table.specs.MethodMarks.{AreMarked};
ghost use Rattle.process_table.specs.Orphans.{is_outside_parent, is_link, is_link_of, is_orphaned, is_stopped_in};

use crate::marks::{SLOTS, is_marked, marks_of};
use crate::rows::{Row, find_row, is_stopped};
use unix_names::{Pid, is_living};

/// Whether a parent is in the member's session, and in another group.
fn is_outside_parent(member: &Row, parent: Option<Row>) -> bool
    ensures { result ≡ is_outside_parent member.now parent }
{
    match parent {
        None => false,
        Some(parent) => parent.group != member.group && parent.session == member.session,
    }
}

/// Whether a process lives and its parent keeps its group from being orphaned.
pub fn is_link(rows: &[Row], member: &Row) -> bool
    ensures { result ≡ is_link rows.now member.now }
{
    is_living(member.life) && is_outside_parent(member, find_row(rows, member.parent))
}

/// Whether a row is that of a member that keeps a group from being orphaned. Its parent is looked up only where it is marked.
fn is_link_of(rows: &[Row], marks: &[bool; SLOTS], group: Pid, row: &Row) -> bool
    requires { AreMarked marks.now rows.now group }
    ensures { result ≡ is_link_of rows.now group row.now }
{
    row.group == group && is_marked(marks, row.parent, row.session) && is_link(rows, row)
}

fn has_link(rows: &[Row], group: Pid) -> bool
    ensures { result ≡ list_any (is_link_of rows.now group) rows.now }
{
    let marks = marks_of(rows, group);
    rows.iter().any(|row| is_link_of(rows, &marks, group, row))
}

/// Whether the parent of each living member of a group is itself a member or is in another session.
pub fn is_orphaned(rows: &[Row], group: Pid) -> bool
    ensures { result ≡ is_orphaned rows.now group }
{
    !has_link(rows, group)
}

/// Whether a group has a stopped member.
pub fn has_stopped(rows: &[Row], group: Pid) -> bool
    ensures { result ≡ list_any (is_stopped_in group) rows.now }
{
    rows.iter()
        .any(|row| row.group == group && is_stopped(row.life))
}
