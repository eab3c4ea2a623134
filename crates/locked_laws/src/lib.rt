//! What a locked node and a letter keep beside their state and message, and that the lists of all nodes by place are the list of all turns with its lines: whatever the decisions, as the contracts of functions without a body.
#![tactic(auto)]

ghost use Rattle.unix_calls.specs.declared.World.{World as TheWorld};
ghost use Rattle.node_core.specs.Advance.{Ask};
ghost use Rattle.locked_laws.specs.Locked.{NodesKeep};
ghost use Rattle.locked_laws.specs.MayTurn.{NodesMayTurn};
ghost use Rattle.locked_laws.specs.Merged.{MergedAreRight};

use unix_calls::{Entry, Turn};

/// A turn that a node has made: its place in the one order of all turns, and the line of the history that it added, if it added one.
#[derive(Clone, Copy, Debug, PartialEq, Eq)]
pub struct PlacedTurn {
    pub place: u64,
    pub turn: Turn,
    pub line: Option<Entry>,
}

/// What a node and a letter keep stays when the node learns, and when it makes a turn; and a node that knows all its turns has the state, the turns and the lines that the whole list gives it.
pub fn nodes_keep()
    ensures { (world : TheWorld) → (ask : Ask) → NodesKeep world ask }
{}

/// In a valid world, with lawful decisions, whoever sets out at a node by a turn may, and each message that the turn sends goes to a node of the world.
pub fn nodes_may_turn()
    ensures { NodesMayTurn }
{}

/// What the nodes' lists put at each place is the list of all turns, and the lines of its run.
pub fn merged_lists_are_the_run()
    ensures { MergedAreRight }
{}
