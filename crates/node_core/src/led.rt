// Starts with those who lead them.
use unix_calls::Start;
use unix_names::Pid;

/// A start, and who leads its group and session.
#[derive(Clone, Copy, Debug, PartialEq, Eq)]
pub struct Led {
    pub start: Start,
    pub leader: Pid,
}
