// The nodes of a world as a machine for the commit word.
use crate::names::WorldName;
use commit_log::Machine;
use std::marker::PhantomData;
use unix_calls::Turn;

/// The nodes of a world, which decide as the kernel does: a step is a turn, and a list of turns is lawful where each is possible at its place.
pub struct NodeMachine<W> {
    of: PhantomData<W>,
}

impl<W: WorldName> Machine for NodeMachine<W> {
    type Step = Turn;

    ghost use Rattle.cluster_state.specs.Possible.{node_of, Possible};
    ghost use Rattle.ops_vector.specs.Answer.{unix_answer};
    ghost use Rattle.past_laws.proofs.Pasts.{nothing, merge, causal};

    ghost node_of = { node_of };

    ghost lawful = { Possible W.world unix_answer };

    ghost empty_law = { nothing W.world unix_answer };

    ghost merge_law = { merge W.world unix_answer };

    ghost causal_law = { causal W.world unix_answer };
}
