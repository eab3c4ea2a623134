//! Which process groups are orphaned, told of what each member knows of its parent.
#![tactic(auto)]

ghost use Rattle.std.specs.Prelude.{◌≡◌, ◌==◌};
ghost use Rattle.std.specs.List.{list_any};
ghost use Rattle.orphan_rules.specs.Orphans.{orphaned, newly_orphaned, is_link, is_link_of, links_of};

use unix_names::{Pid, SYSTEM};

/// What a process knows of its group, its session and its parent.
///
/// Where the parent is the system process, `parent_group` and `parent_session` are `Pid(0)`, which is no group and no session.
#[derive(Clone, Copy, Debug, PartialEq, Eq)]
pub struct Kin {
    pub pid: Pid,
    pub group: Pid,
    pub session: Pid,
    /// Whether the process has not ended.
    pub living: bool,
    pub parent: Pid,
    pub parent_group: Pid,
    pub parent_session: Pid,
}

/// Whether the process keeps its group from being orphaned: it is living, and its parent is in its session and outside its group.
pub fn is_link(k: &Kin) -> bool
    ensures { result ≡ is_link k.now }
{
    k.living && k.parent != SYSTEM && k.parent_session == k.session && k.parent_group != k.group
}

/// Whether a group is orphaned (POSIX.1-2017, XBD Orphaned Process Group): the parent of each living member is itself a member or is not in the group's session.
///
/// `kin` has the group's living members; others in it do not count. It takes no memory.
pub fn is_orphaned(kin: &[Kin], group: Pid) -> bool
    ensures rule { result ≡ orphaned kin.now group }
    ensures counted { result ≡ (links_of kin.now group == 0) }
{
    !has_link(kin, group)
}

fn has_link(kin: &[Kin], group: Pid) -> bool
    ensures { result ≡ list_any (is_link_of group) kin.now }
{
    kin.iter().any(|k| k.group == group && is_link(k))
}

/// Whether a group was not orphaned and is orphaned now. It takes no memory.
pub fn newly_orphaned(before: &[Kin], after: &[Kin], group: Pid) -> bool
    ensures { result ≡ newly_orphaned before.now after.now group }
{
    !is_orphaned(before, group) && is_orphaned(after, group)
}
