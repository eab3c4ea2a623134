// Nodes behind their locks, each with its inbox.
ghost use Rattle.std.specs.Prelude.{◌≡◌, ◌<◌, length, [], IfOk};
ghost use Rattle.unix_calls.specs.Valid.{IsValid};
ghost use Rattle.commit_log.specs.Passes.{first_passes};

use crate::letters::Inbox;
use crate::machine::NodeMachine;
use crate::names::{LogName, WorldName};
use crate::node::NodeState;
use commit_log::NodePass;
use std::alloc::Global;
use std::collections::VecDeque;
use std::sync::Mutex;
use unix_calls::World;
use unix_names::NoMemory;

/// A node behind its lock.
pub type LockedNode<W, J> = Mutex<NodeState<W, J>>;

/// A node behind its lock, and the letters that have come for it.
#[derive(Drop)]
pub struct Station<W: WorldName, J: LogName> {
    pub node: LockedNode<W, J>,
    pub inbox: Inbox<W, J>,
}

/// The nodes of a world before their first turns, each with its pass.
///
/// # Errors
/// NoMemory alone.
pub fn first_stations<W: WorldName, J: LogName>(
    alloc: Global,
    world: &World,
    passes: Vec<NodePass<NodeMachine<W>>>,
) -> Result<Vec<Station<W, J>>, NoMemory>
    requires world { world.now ≡ W.world }
    requires valid { IsValid world.now }
    requires passes { passes.items ≡ first_passes J.log 0 world.now.nodes }
    ensures { IfOk result (λ stations. length stations.items ≡ world.now.nodes) }
{
    let mut stations = Vec::new(alloc);
    let mut id = 0;
    let mut rest = VecDeque::from_vec(passes);
    while let Some(pass) = rest.pop_front() {
        stations.push(Station {
            node: Mutex::new(NodeState::new(alloc, world, id, pass)?),
            inbox: Inbox::new(alloc),
        })?;
        id += 1;
    }
    Ok(stations)
}
