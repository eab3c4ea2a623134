// The limit of a name.

/// How many bytes a name has at most.
pub const LONGEST_NAME: usize = 16;
