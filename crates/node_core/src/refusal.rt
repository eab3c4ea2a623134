// Why a node makes no turn.

/// Why a node does not go: nobody is ready, or memory ran out.
#[derive(Clone, Copy, Debug, PartialEq, Eq)]
pub enum GoRefusal {
    Idle,
    NoMemory,
}

/// Why a node takes no message: another number of the wire is expected, or memory ran out.
#[derive(Clone, Copy, Debug, PartialEq, Eq)]
pub enum TakeRefusal {
    NotNext { expected: u64, got: u64 },
    NoMemory,
}
