// The limits of a world and of its run.

/// How many nodes a world has at most.
pub const MOST_NODES: u32 = 64;

/// How many scripts a world has at most.
pub const MOST_SCRIPTS: usize = 64;

/// How many statements a script has at most.
pub const MOST_STATEMENTS: usize = 256;

/// How many starts a world has at most.
pub const MOST_STARTS: usize = 64;

/// How many processes a world makes at most, all forks and execs followed.
pub const MOST_PROCESSES: u32 = 1_024;

/// How many statements a world runs at most, all forks and execs followed.
pub const MOST_WORK: u32 = 4_096;

/// Where the sums of work stop.
pub const WORK_STOP: u32 = 1_000_000;

/// For how many turns a schedule stands at most.
pub const MOST_TURNS: u32 = 200_000;
