// What a process carries of its signals from node to node.
use crate::sig::Sig;

/// A process's own signal state, with how many signals of its stream it has taken in so far.
#[derive(Clone, Copy, Debug, PartialEq, Eq)]
pub struct Own {
    pub sig: Sig,
    pub taken: u64,
}
