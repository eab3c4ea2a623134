// Process ids, nodes and names.
ghost use Rattle.std.specs.Prelude.{◌≡◌, ◌≤◌};
ghost use Rattle.unix_names.specs.Names.{home, is_before};

use crate::limits::{NO_PID, PIDS_PER_NODE};
use std::alloc::{AllocError, AllocFailed};

/// The process id of the system process, the parent of whoever has no other.
pub const SYSTEM: Pid = Pid(1);

/// The process id that is never given out. Scripts write it `none`.
pub const NOBODY: Pid = Pid(NO_PID);

/// A process id, also used for groups and sessions (POSIX.1-2017, XBD 3.297, 3.296 and 3.344).
#[derive(Clone, Copy, Debug, Default, PartialEq, Eq, PartialOrd, Ord)]
pub struct Pid(pub u32);

/// A node of the cluster, numbered from 0.
#[derive(Clone, Copy, Debug, PartialEq, Eq, PartialOrd, Ord)]
pub struct NodeId(pub u32);

/// The name of a record: of a process (`V`) or of a group (`G`). Every `V` is before every `G`, then the lower id comes first.
#[derive(Clone, Copy, Debug, PartialEq, Eq, PartialOrd, Ord)]
pub enum Name {
    V(Pid),
    G(Pid),
}

/// Memory ran out.
#[derive(Clone, Copy, Debug, PartialEq, Eq)]
pub struct NoMemory;

impl From<AllocError> for NoMemory {
    fn from(_: AllocError) -> NoMemory {
        NoMemory
    }
}

impl<T: Drop> From<AllocFailed<T>> for NoMemory {
    fn from(_: AllocFailed<T>) -> NoMemory {
        NoMemory
    }
}

/// The node at which the record of a name is at home.
pub fn home_of(name: Name, nodes: u32) -> NodeId
    requires { 1 ≤ nodes }
    ensures { result.0 ≡ home name nodes }
{
    let pid = match name {
        Name::V(pid) => pid,
        Name::G(pid) => pid,
    };
    let node = pid.0 / PIDS_PER_NODE;
    if node < nodes {
        NodeId(node)
    } else {
        NodeId(0)
    }
}

/// Whether a name comes before another.
pub fn is_before(first: Name, second: Name) -> bool
    ensures { result ≡ is_before first second }
{
    first < second
}
