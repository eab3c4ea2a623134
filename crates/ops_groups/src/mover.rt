// Who goes from group to group, and where.
ghost use Rattle.std.specs.Prelude.{◌≡◌, ◌≤◌, ◌∷◌, length, IfOk};
ghost use Rattle.ops_groups.specs.MethodMove.{mover_of};

use std::alloc::Global;
use unix_names::{NoMemory, Pid, Seq};
use vproc_record::Vproc;

/// Where a process goes: a group, and the session that it is of.
#[derive(Clone, Copy, Debug, PartialEq, Eq)]
pub struct Place {
    pub group: Pid,
    pub session: Pid,
}

/// Who goes, as its record tells before it changes.
#[derive(Debug, Drop)]
pub struct Mover {
    pub pid: Pid,
    pub uid: u32,
    /// The group that it leaves.
    pub group: Pid,
    /// The process, and then its children: of these alone the counts may change.
    pub near: Seq<Pid>,
}

fn near_of(alloc: Global, u: &Vproc) -> Result<Seq<Pid>, NoMemory>
    ensures near { IfOk result (λ near. near ≡ u.now.pid ∷ u.now.children) }
    ensures few { IfOk result (λ near. length near ≤ 65) }
{
    let mut near = Seq::new(alloc);
    near.push(u.pid)?;
    near.extend_from_slice(u.children.as_slice())?;
    Ok(near)
}

/// What the record tells of who goes.
///
/// # Errors
/// NoMemory where there is no room for the list of the process and its children.
pub fn mover_of(alloc: Global, u: &Vproc) -> Result<Mover, NoMemory>
    ensures mover { IfOk result (λ m. m ≡ mover_of u.now) }
    ensures few { IfOk result (λ m. length m.near ≤ 65) }
{
    let near = near_of(alloc, u)?;
    Ok(Mover {
        pid: u.pid,
        uid: u.uid,
        group: u.group,
        near,
    })
}
