// Where a line stands in its file.

/// What the lines before a line leave.
#[derive(Clone, Copy, Debug, PartialEq, Eq)]
pub struct Place {
    /// Whether one of them says something.
    pub begun: bool,
    /// How many nodes the cluster has, or 0 where none of them says so.
    pub nodes: u32,
    /// Whether a script is open.
    pub is_open: bool,
    /// How many of them begin a script.
    pub scripts: usize,
    /// How many statements the last of these scripts has.
    pub statements: usize,
    /// How many of them are starts.
    pub starts: usize,
}

/// Where a file's first line stands.
pub const FIRST_PLACE: Place = Place {
    begun: false,
    nodes: 0,
    is_open: false,
    scripts: 0,
    statements: 0,
    starts: 0,
};
