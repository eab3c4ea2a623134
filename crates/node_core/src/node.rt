// A node that others see.
ghost use Rattle.std.specs.Prelude.{◌≡◌, ◌↔◌, ◌⊎◌, ℕ, Err, [], slice_index, true, false, IsTrue, IfOk, IfErr, OnOk};
ghost use Rattle.unix_calls.specs.Valid.{IsValid};
ghost use Rattle.node_core.specs.Advance.{is_advanced};
ghost use Rattle.node_core.specs.Conditions.{CanSetOut};
ghost use Rattle.node_state.specs.Ready.{movable_count};
ghost use Rattle.node_state.specs.Wires.{one_taken, sent_off};
ghost use Rattle.node_core.specs.Turns.{led, going, pushed, arriving, came};

use crate::first::first_state;
use crate::refusal::{GoRefusal, TakeRefusal};
use crate::turns::{come, go, push};
use courier_core::Message;
use node_state::{Sent, State};
use record_bag::OpVector;
use std::alloc::Global;
use std::marker::Model;
use std::mem;
use unix_calls::{Entry, World};
use unix_names::{NoMemory, NodeId, Seq};

/// What a turn gives: the line of the history, if there is one, and the messages that it sends, in order.
#[derive(Debug, Drop)]
pub struct StepOut {
    pub entry: Option<Entry>,
    pub sends: Seq<Sent>,
}

/// One node of the cluster, over a vector of decisions.
///
/// After a call that found no memory, or after `fail`, the node has failed, and every turn answers NoMemory.
#[derive(Drop)]
pub struct Node<O: OpVector> {
    ops: O,
    state: State,
    has_failed: bool,
}

impl<O: OpVector> Model for Node<O> {
    ghost use Rattle.node_core.specs.Views.{NodeView};

    ghost Value = { NodeView O };

    ghost view = { λ node. record { ops = node.ops; state = node.state; has_failed = node.has_failed } };
}

/// What the turn sends is taken out.
fn send_off(alloc: Global, state: &mut State, entry: Option<Entry>) -> StepOut
    ensures entry { result.entry ≡ entry }
    ensures sends { result.sends ≡ state.old.out }
    ensures state { state.new ≡ sent_off state.old }
{
    let sends = mem::replace(&mut state.out, Seq::new(alloc));
    StepOut { entry, sends }
}

/// The expected message of a wire is taken.
fn take_next<O: OpVector>(
    ops: &O,
    alloc: Global,
    world: &World,
    state: &mut State,
    from: NodeId,
    message: Message,
) -> Result<Option<Entry>, NoMemory>
    requires { CanSetOut (O.fits ops.now) world.now (O.answer ops.now) (arriving (one_taken state.old from.0) message) }
    ensures { IfOk result (λ entry. (n : ℕ) × (came world.now (O.answer ops.now) n (one_taken state.old from.0) message ≡ Some (is_advanced state.new entry))) }
{
    state.count_taken(from.0)?;
    come(ops, alloc, world, state, message)
}

impl<O: OpVector + Drop> Node<O> {
    ghost use Rattle.node_core.specs.First.{first_state};

    /// A node before the first turn: its own starts are ready, and their records are at home.
    pub fn new(alloc: Global, ops: O, world: &World, id: NodeId) -> Result<Node<O>, NoMemory>
        requires { IsValid world.now }
        ensures ops { IfOk result (λ node. node.ops ≡ ops) }
        ensures state { IfOk result (λ node. node.state ≡ first_state world.now id.0) }
        ensures running { IfOk result (λ node. node.has_failed ≡ false) }
    {
        let state = first_state(alloc, world, id)?;
        Ok(Node {
            ops,
            state,
            has_failed: false,
        })
    }
}

impl<O: OpVector> Node<O> {
    ghost use Rattle.node_core.specs.Views.{IsTurned, CanGo, CanPush, CanTake, GoRefuses, PushRefuses, TakeRefuses};

    /// The first of the ready queue has its turn. Idle exactly where nobody stands there.
    pub fn go(&mut self, alloc: Global, world: &World) -> Result<StepOut, GoRefusal>
        requires { CanGo O.fits O.answer world.now self.old }
        ensures ok { IfOk result (λ out. (n : ℕ) × IsTurned self.new.state out.entry out.sends (led world.now (O.answer self.old.ops) n (going world.now self.old.state))) }
        ensures refused { IfErr result (λ refusal. GoRefuses refusal self.old self.new) }
        ensures running { OnOk result (self.new.has_failed ≡ false) }
        ensures failed { self.old.has_failed ≡ true → result ≡ Err GoRefusal.NoMemory }
        ensures ops { self.new.ops ≡ self.old.ops }
    {
        if self.has_failed {
            return Err(GoRefusal::NoMemory);
        }
        match go(&self.ops, alloc, world, &mut self.state) {
            Ok(Some(entry)) => Ok(send_off(alloc, &mut self.state, entry)),
            Ok(None) => Err(GoRefusal::Idle),
            Err(NoMemory) => {
                self.has_failed = true;
                Err(GoRefusal::NoMemory)
            }
        }
    }

    /// The first image of the ready queue that is not stopped sets out to be moved to a node. Idle exactly where there is none.
    pub fn push(&mut self, alloc: Global, world: &World, to: NodeId) -> Result<StepOut, GoRefusal>
        requires { CanPush O.fits O.answer world.now to self.old }
        ensures ok { IfOk result (λ out. (n : ℕ) × IsTurned self.new.state out.entry out.sends (led world.now (O.answer self.old.ops) n (pushed self.old.state to))) }
        ensures refused { IfErr result (λ refusal. PushRefuses refusal self.old self.new) }
        ensures running { OnOk result (self.new.has_failed ≡ false) }
        ensures failed { self.old.has_failed ≡ true → result ≡ Err GoRefusal.NoMemory }
        ensures ops { self.new.ops ≡ self.old.ops }
    {
        if self.has_failed {
            return Err(GoRefusal::NoMemory);
        }
        match push(&self.ops, alloc, world, &mut self.state, to) {
            Ok(Some(entry)) => Ok(send_off(alloc, &mut self.state, entry)),
            Ok(None) => Err(GoRefusal::Idle),
            Err(NoMemory) => {
                self.has_failed = true;
                Err(GoRefusal::NoMemory)
            }
        }
    }

    /// Takes a message of another node. NotNext exactly where the number is not the expected one of that wire; the message is then dropped.
    pub fn take(
        &mut self,
        alloc: Global,
        world: &World,
        from: NodeId,
        number: u64,
        message: Message,
    ) -> Result<StepOut, TakeRefusal>
        requires { CanTake O.fits O.answer world.now from number message self.old }
        ensures ok { IfOk result (λ out. (n : ℕ) × IsTurned self.new.state out.entry out.sends (came world.now (O.answer self.old.ops) n (one_taken self.old.state from.0) message)) }
        ensures next { OnOk result (number ≡ slice_index self.old.state.taken from.0) }
        ensures refused { IfErr result (λ refusal. TakeRefuses refusal from.0 number self.old self.new) }
        ensures running { OnOk result (self.new.has_failed ≡ false) }
        ensures failed { self.old.has_failed ≡ true → result ≡ Err TakeRefusal.NoMemory }
        ensures ops { self.new.ops ≡ self.old.ops }
    {
        if self.has_failed {
            return Err(TakeRefusal::NoMemory);
        }
        let expected = self.expects(from);
        if number != expected {
            return Err(TakeRefusal::NotNext {
                expected,
                got: number,
            });
        }
        match take_next(&self.ops, alloc, world, &mut self.state, from, message) {
            Ok(entry) => Ok(send_off(alloc, &mut self.state, entry)),
            Err(NoMemory) => {
                self.has_failed = true;
                Err(TakeRefusal::NoMemory)
            }
        }
    }

    #[tactic(auto, using(node_state::proofs::WireLaws::wire_laws))]
    /// The number of the next message of a wire.
    pub fn expects(&self, from: NodeId) -> u64
        ensures { result ≡ slice_index self.now.state.taken from.0 }
    {
        self.state.taken.get(from.0 as usize).copied().unwrap_or(0)
    }

    /// How many images stand in the ready queue that are not stopped, of which a push could move the first. It takes no memory, and no walk.
    pub fn ready(&self) -> usize
        ensures { result ≡ movable_count self.now.state.ready }
    {
        self.state.ready.movable()
    }

    /// Whether nothing is to be done here: the node has failed, or nobody stands in the ready queue.
    pub fn is_idle(&self) -> bool
        ensures { IsTrue result ↔ ((self.now.has_failed ≡ true) ⊎ (self.now.state.ready ≡ [])) }
    {
        self.has_failed || self.state.ready.is_empty()
    }

    /// The node has failed from now on.
    pub fn fail(&mut self)
        ensures failed { self.new.has_failed ≡ true }
        ensures state { self.new.state ≡ self.old.state }
        ensures ops { self.new.ops ≡ self.old.ops }
    {
        self.has_failed = true;
    }
}
