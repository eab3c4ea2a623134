// The word, whose count is the number of places that were drawn, and the steps on it.
ghost use Rattle.std.specs.Prelude.{[], ◌∷◌, ◌++◌, None, List, Option, ℕ};
ghost use Rattle.commit_log.specs.MethodWord.{IsKept, fresh, IsCommitted, IsUnited, head_knower, rest_knowers, told};

use crate::machine::Machine;
use atomic_table::{Join, Play, Split, TableRule};
use std::collections::LinkedList;
use std::marker::{Brand, PhantomData};

/// Who knows: the pass of a node, or a note; and at each place the step, where it is known. No value of it is made.
pub struct Knower<S> {
    pub node: Option<u64>,
    pub seen: LinkedList<Option<S>>,
}

/// The rule of the word. Its key is the number of nodes.
pub struct Law<M> {
    of: PhantomData<M>,
}

impl<M: Machine> TableRule<(), LinkedList<Knower<M::Step>>, u64> for Law<M> {
    ghost holds = { λ nodes s. IsKept M.node_of M.lawful nodes s };

    ghost first = { λ nodes. fresh 0 nodes };
}

/// Which step a call commits.
pub trait Saying<S> {
    ghost said: { Option S };
}

impl<S> Saying<S> for Brand {
    ghost said = { None };
}

/// The step is committed.
pub struct Commits<T> {
    of: PhantomData<T>,
}

impl<S, T: Saying<S>> Play<(), LinkedList<Knower<S>>> for Commits<T> {
    ghost then = { IsCommitted T.said };
}

/// Two become one, who knows what both knew.
pub struct Unites<M> {
    of: PhantomData<M>,
}

impl<M: Machine> Play<(), LinkedList<Knower<M::Step>>> for Unites<M> {
    ghost then = { IsUnited M.node_of M.lawful };
}

/// The first one gets a seat of its own.
pub struct Deals;

impl<S> Split<LinkedList<Knower<S>>> for Deals {
    ghost left = { λ v. rest_knowers v };

    ghost right = { λ v. head_knower v };
}

/// A note gets a seat, and knows what the pass knows.
pub struct Tells;

impl<S> Split<LinkedList<Knower<S>>> for Tells {
    ghost left = { λ v. v };

    ghost right = { λ v. told v };
}

/// All who sat on two seats sit on one.
pub struct Gathers;

impl<S> Join<LinkedList<Knower<S>>> for Gathers {
    ghost both = { λ v w. v ++ w };

    ghost spent = { [] };
}
