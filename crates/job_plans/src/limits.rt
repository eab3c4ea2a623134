// The limits of a job file.

/// How many stages a job has at most.
pub const MOST_STAGES: usize = 8;

/// How many stages all jobs of a file have at most.
pub const MOST_STAGES_IN_ALL: usize = 63;
