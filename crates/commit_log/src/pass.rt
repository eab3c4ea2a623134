// What a thread holds of a log.
ghost use Rattle.std.specs.Prelude.{◌≡◌, ◌∷◌, [], Some, None};
ghost use Rattle.commit_log.specs.Passes.{Known, Heard};
ghost use Rattle.commit_log.specs.MethodWord.{knower, seen_of, node_at};

use crate::machine::Machine;
use crate::word::Knower;
use atomic_table::Seat;
use std::collections::LinkedList;
use std::marker::{Model, PhantomData};

/// The pass of one node: with it the node's steps are committed. Contracts see its log, its node, and at each place the step, where the pass has seen it.
#[derive(Drop)]
pub struct NodePass<M: Machine> {
    pub(crate) seat: Seat<(), LinkedList<Knower<M::Step>>>,
    pub(crate) of: PhantomData<M>,
}

impl<M: Machine> Model for NodePass<M> {
    ghost Value = { Known M.Step };

    ghost view = { λ p. record { log = p.seat.table_id; node = node_at p.seat.me.0; seen = seen_of p.seat.me.0 } };

    ghost invariant = { λ p. p.seat.me ≡ (knower (Some (node_at p.seat.me.0)) (seen_of p.seat.me.0) ∷ [], []) };
}

/// What a pass had seen when the note was made.
#[derive(Drop)]
pub struct Note<M: Machine> {
    pub(crate) seat: Seat<(), LinkedList<Knower<M::Step>>>,
    pub(crate) of: PhantomData<M>,
}

impl<M: Machine> Model for Note<M> {
    ghost Value = { Heard M.Step };

    ghost view = { λ n. record { log = n.seat.table_id; seen = seen_of n.seat.me.0 } };

    ghost invariant = { λ n. n.seat.me ≡ (knower None (seen_of n.seat.me.0) ∷ [], []) };
}
