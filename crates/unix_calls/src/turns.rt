// What a node does next.
use crate::calls::Call;
use unix_names::NodeId;

/// What an image wants of the kernel: a call, for a fork or a migration with the node that it names, a look at its signals, or to be moved.
#[derive(Clone, Copy, Debug, PartialEq, Eq)]
pub enum Job {
    Ask(Call, Option<NodeId>),
    Look,
    Push(NodeId),
}

/// A turn of a schedule. `Auto(k)` stands for k turns by the rule of `auto`.
#[derive(Clone, Copy, Debug, PartialEq, Eq)]
pub enum Turn {
    Go(u32),
    Push(u32, u32),
    Take(u32, u32),
    Auto(u32),
}

/// What an image waits for.
#[derive(Clone, Copy, Debug, PartialEq, Eq)]
pub enum Phase {
    Ready,
    Asleep,
    Stopped,
    Gone,
}
