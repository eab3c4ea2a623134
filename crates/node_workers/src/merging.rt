// The turns of all nodes, put together by place.
ghost use Rattle.std.specs.Prelude.{ℕ, ◌≡◌, ◌<◌, ◌≤◌, length, map, All, IfOk};
ghost use Rattle.ops_vector.specs.Answer.{unix_answer};
ghost use Rattle.cluster_state.specs.Possible.{Possible};
ghost use Rattle.cluster_core.specs.RunOn.{AreFew};
ghost use Rattle.node_workers.specs.MethodMerging.{laid_out, AreParts};

use crate::machine::NodeMachine;
use crate::names::{LogName, WorldName};
use crate::stations::Station;
use commit_log::{CommitLog, NodePass};
use locked_laws::PlacedTurn;
use std::alloc::Global;
use unix_calls::Turn;
use unix_names::NoMemory;

// What the nodes leave: their passes, and the turns that each has made.
#[derive(Drop)]
pub(crate) struct Parts<W: WorldName> {
    passes: Vec<NodePass<NodeMachine<W>>>,
    lists: Vec<Vec<PlacedTurn>>,
}

// Takes the nodes out of their locks. One that has failed had no memory.
fn parts_of<W: WorldName, J: LogName>(
    alloc: Global,
    mut stations: Vec<Station<W, J>>,
) -> Result<Parts<W>, NoMemory>
    ensures { IfOk result (λ parts. AreParts W.world J.log (length stations.items) parts.passes.items (map (λ v. v.items) parts.lists.items)) }
{
    let mut passes = Vec::with_capacity(alloc, stations.len())?;
    let mut lists = Vec::with_capacity(alloc, stations.len())?;
    while let Some(station) = stations.pop() {
        let Station { node, inbox: _ } = station;
        let (has_failed, pass, list) = node.into_inner().into_parts();
        if has_failed {
            return Err(NoMemory);
        }
        passes.push(pass)?;
        lists.push(list)?;
    }
    Ok(Parts { passes, lists })
}

// Each turn of a list is laid at its place.
fn lay_out(steps: &mut Vec<Turn>, list: &[PlacedTurn])
    requires { All (λ t. t.place < length steps.old.items) list.now }
    ensures { steps.new.items ≡ laid_out list.now steps.old.items }
{
    for made in list {
        steps[made.place as usize] = made.turn;
    }
}

// So many turns, which stand for none yet.
fn blank(alloc: Global, places: u64) -> Result<Vec<Turn>, NoMemory>
    ensures { IfOk result (λ steps. length steps.items ≡ places) }
{
    let mut steps = Vec::new(alloc);
    for _ in 0..places {
        steps.push(Turn::Go(0))?;
    }
    Ok(steps)
}

/// The turns that all nodes have made, in the order of their places.
///
/// # Errors
/// NoMemory, also where a node has found none.
pub fn merged_turns<W: WorldName, J: LogName>(
    alloc: Global,
    log: CommitLog<NodeMachine<W>>,
    stations: Vec<Station<W, J>>,
) -> Result<Vec<Turn>, NoMemory>
    requires log { log.log ≡ J.log }
    requires all { (length stations.items ≡ W.world.nodes) × (log.nodes ≡ W.world.nodes) }
    ensures possible { IfOk result (λ steps. Possible W.world unix_answer steps.items) }
    ensures few { IfOk result (λ steps. AreFew steps.items) }
{
    let Parts { passes, mut lists } = parts_of(alloc, stations)?;
    let places = log.close(passes, Vec::new(alloc));
    let mut steps = blank(alloc, places)?;
    while let Some(list) = lists.pop() {
        lay_out(&mut steps, list.as_slice());
    }
    Ok(steps)
}
