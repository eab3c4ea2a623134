// The limit of a load.

/// How many processes a load has at most.
pub const LARGEST_LOAD: u32 = 200;
