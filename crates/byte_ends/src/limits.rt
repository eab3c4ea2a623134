// The limit of an input.

/// How many bytes an input has at most.
pub const LONGEST_INPUT: usize = 1_048_576;
