// The limits that each node keeps.

/// How many process ids a node has: node k gives out the ids from 1,000,000 k + 2 on.
pub const PIDS_PER_NODE: u32 = 1_000_000;

/// The number that no process id has, one below the ids of the second node. Scripts write it `none`.
pub const NO_PID: u32 = 999_999;

/// How many children a process has at most, living or ended: the fork of another is refused with EAGAIN.
pub const MOST_CHILDREN: usize = 64;
