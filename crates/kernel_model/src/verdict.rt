// What is said of an entry.

/// A rule of a history. They are asked in this order, and the first that fails is told.
#[derive(Clone, Copy, Debug, PartialEq, Eq)]
pub enum Rule {
    /// The process has a row, and has not ended.
    UnknownProcess,
    /// A process that calls, or is moved, is not stopped and has nothing deliverable.
    SignalFirst,
    /// The reply is one that the call may get.
    WrongReply,
    /// The event may happen.
    WrongEvent,
}

/// Whether an entry is legal, or the first rule that fails.
#[derive(Clone, Copy, Debug, PartialEq, Eq)]
pub enum Verdict {
    Legal,
    Illegal(Rule),
}
