// Groups that the end of a process may leave orphaned (POSIX.1-2017, XBD chapter 3, Orphaned Process Group).
ghost use Rattle.std.specs.Prelude.{◌≡◌, ◌&&◌, ◌||◌, filter, OnOk, IfOk};
ghost use Rattle.std.specs.List.{list_any};
ghost use Rattle.unix_names.specs.declared.Pid.{Pid};
ghost use Rattle.process_table.specs.Rows.{is_same, is_among};
ghost use Rattle.process_table.specs.Orphans.{is_link, is_stopped_in};
ghost use Rattle.kernel_rules.specs.MethodEnding.{ended_children, is_near, is_at_risk, is_left};

use process_table::{Row, has_stopped, is_among, is_link, is_orphaned};
use std::alloc::Global;
use unix_names::{NoMemory, Pid, is_living};

/// The ended children of a process.
#[tactic(auto, using(crate::proofs::NearLaws::ended_more))]
fn ended_children(alloc: Global, rows: &[Row], pid: Pid) -> Result<Vec<Pid>, NoMemory>
    ensures { IfOk result (λ pids. pids.items ≡ ended_children rows.now pid) }
{
    let mut pids = Vec::new(alloc);
    for row in rows {
        if row.parent == pid && !is_living(row.life) {
            pids.push(row.pid)?;
        }
    }
    Ok(pids)
}

/// Whether a row is that of a process, of a child of it, or of a child of one that has ended, and keeps its group from being orphaned.
fn is_near_link(rows: &[Row], row: &Row, pid: Pid, ended: &[Pid]) -> bool
    requires { ended.now ≡ ended_children rows.now pid }
    ensures { result ≡ (is_near rows.now pid row.now && is_link rows.now row.now) }
{
    (row.pid == pid || row.parent == pid || is_among(ended, row.parent)) && is_link(rows, row)
}

/// Adds a group to a list where it has a stopped member and is not listed.
fn add_stopped(groups: &mut Vec<Pid>, rows: &[Row], group: Pid) -> Result<(), NoMemory>
    ensures { OnOk result ((g : Pid) → is_among groups.new.items g ≡ (is_among groups.old.items g || (is_same g group && list_any (is_stopped_in g) rows.now))) }
{
    if !is_among(groups, group) && has_stopped(rows, group) {
        groups.push(group)?;
    }
    Ok(())
}

/// The groups that the end of a process may leave orphaned with a stopped member: those with one that a row near the process keeps from being orphaned.
pub fn groups_at_risk(alloc: Global, rows: &[Row], pid: Pid) -> Result<Vec<Pid>, NoMemory>
    ensures { IfOk result (λ groups. (g : Pid) → is_among groups.items g ≡ is_at_risk rows.now pid g) }
{
    let ended = ended_children(alloc, rows, pid)?;
    let mut groups = Vec::new(alloc);
    for row in rows {
        if is_near_link(rows, row, pid, &ended) {
            add_stopped(&mut groups, rows, row.group)?;
        }
    }
    Ok(groups)
}

/// Keeps the groups that are orphaned and have a stopped member.
pub fn keep_left(groups: &mut Vec<Pid>, rows: &[Row])
    ensures { groups.new.items ≡ filter (is_left rows.now) groups.old.items }
{
    groups.retain(|group| has_stopped(rows, *group) && is_orphaned(rows, *group));
}
