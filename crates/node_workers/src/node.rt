// A node with its pass and the list of its turns, for a lock.
ghost use Rattle.std.specs.Prelude.{◌≡◌, ◌<◌, ◌^◌, [], true, false, length, None, Some, IfOk, OnErr, IsTrue, ◌↔◌};
ghost use Rattle.unix_calls.specs.Valid.{IsValid};
ghost use Rattle.node_workers.specs.Views.{IsNext, IsKept};
ghost use Rattle.node_workers.specs.Turns.{Works};

use crate::committing::commit_turn;
use crate::letters::{Letter, Letters};
use crate::machine::NodeMachine;
use crate::names::{LogName, WorldName};
use commit_log::{CommitLog, NodePass};
use locked_laws::PlacedTurn;
use node_core::{GoRefusal, Node, TakeRefusal};
use std::alloc::Global;
use std::marker::{Model, PhantomData};
use unix_calls::{Turn, World};
use unix_names::{NoMemory, NodeId};
use unix_ops::UnixOps;

/// A node, its pass, and the turns that it has made: unless the node has failed, its state is that after the turns which the pass has seen.
#[derive(Drop)]
pub struct NodeState<W: WorldName, J: LogName> {
    id: u32,
    node: Node<UnixOps>,
    pass: NodePass<NodeMachine<W>>,
    list: Vec<PlacedTurn>,
    has_failed: bool,
    of: PhantomData<J>,
}

impl<W: WorldName, J: LogName> Model for NodeState<W, J> {
    ghost use Rattle.node_workers.specs.Views.{LockedView, IsLockedNode};

    ghost Value = { LockedView };

    ghost view = { λ n. record { id = n.id; state = n.node.state; has_failed = n.has_failed; pass = n.pass; list = n.list.items } };

    ghost invariant = { λ n. IsLockedNode W.world J.log n.id n.has_failed n.node n.pass n.list.items };
}

/// What a turn of a locked node came to: the letters that it sends, in order; or nothing was to be done.
#[derive(Drop)]
pub enum Worked<W: WorldName, J: LogName> {
    Did(Letters<W, J>),
    Nothing,
}

impl<W: WorldName, J: LogName> NodeState<W, J> {
    /// A node before its first turn, with its pass.
    ///
    /// # Errors
    /// NoMemory alone.
    pub fn new(
        alloc: Global,
        world: &World,
        id: u32,
        pass: NodePass<NodeMachine<W>>,
    ) -> Result<NodeState<W, J>, NoMemory>
        requires world { world.now ≡ W.world }
        requires valid { IsValid world.now }
        requires inside { id < world.now.nodes }
        requires pass { pass ≡ record { log = J.log; node = id; seen = [] } }
        ensures { IfOk result (λ n. (n.id ≡ id) × (n.list ≡ [])) }
    {
        Ok(NodeState {
            id,
            node: Node::new(alloc, UnixOps, world, NodeId(id))?,
            pass,
            list: Vec::new(alloc),
            has_failed: false,
            of: PhantomData,
        })
    }

    /// How many turns the node has made.
    pub fn turns(&self) -> u64
        ensures { result ≡ length self.now.list }
    {
        self.list.len() as u64
    }

    /// The node has failed from now on.
    pub fn fail(&mut self)
        ensures { self.new ≡ record self.old { has_failed = true } }
    {
        self.has_failed = true;
    }

    /// One turn: with a letter that is the next of its wire, the node learns its note and takes its message; without one, the first of its ready queue goes. A letter that is not the next is dropped.
    ///
    /// # Errors
    /// NoMemory; the node has failed, and the list is as before.
    pub fn turn(
        &mut self,
        alloc: Global,
        world: &World,
        log: &CommitLog<NodeMachine<W>>,
        letter: Option<Letter<W, J>>,
    ) -> Result<Worked<W, J>, NoMemory>
        requires world { world.now ≡ W.world }
        requires valid { IsValid world.now }
        requires log { log.now.log ≡ J.log }
        requires room { length self.old.list < 2 ^ 40 }
        ensures works { IfOk result (Works world.now self.old self.new letter) }
        ensures failed { OnErr result ((self.new.has_failed ≡ true) × (self.new.list ≡ self.old.list)) }
    {
        if self.has_failed {
            return Err(NoMemory);
        }
        match letter {
            None => self.go(alloc, world, log),
            Some(letter) if self.is_next(&letter) => self.take(alloc, world, log, letter),
            Some(_) => Ok(Worked::Nothing),
        }
    }

    // Whether a letter is for this node, and the next of its wire.
    fn is_next(&self, letter: &Letter<W, J>) -> bool
        ensures { IsTrue result ↔ IsNext self.now letter.now }
    {
        letter.sent.to == self.id && letter.sent.number == self.node.expects(letter.from)
    }

    // The first of the ready queue goes.
    fn go(
        &mut self,
        alloc: Global,
        world: &World,
        log: &CommitLog<NodeMachine<W>>,
    ) -> Result<Worked<W, J>, NoMemory>
        requires world { world.now ≡ W.world }
        requires valid { IsValid world.now }
        requires log { log.now.log ≡ J.log }
        requires room { length self.old.list < 2 ^ 40 }
        requires runs { self.old.has_failed ≡ false }
        ensures works { IfOk result (Works world.now self.old self.new None) }
        ensures failed { OnErr result ((self.new.has_failed ≡ true) × (self.new.list ≡ self.old.list)) }
    {
        let out = match self.node.go(alloc, world) {
            Ok(out) => out,
            Err(GoRefusal::Idle) => return Ok(Worked::Nothing),
            Err(GoRefusal::NoMemory) => {
                self.has_failed = true;
                return Err(NoMemory);
            }
        };
        let turn = Turn::Go(self.id);
        let Ok(letters) = commit_turn(alloc, log, &mut self.pass, &mut self.list, turn, out) else {
            self.has_failed = true;
            return Err(NoMemory);
        };
        Ok(Worked::Did(letters))
    }

    // The note of a letter is learned, and its message taken.
    fn take(
        &mut self,
        alloc: Global,
        world: &World,
        log: &CommitLog<NodeMachine<W>>,
        letter: Letter<W, J>,
    ) -> Result<Worked<W, J>, NoMemory>
        requires world { world.now ≡ W.world }
        requires valid { IsValid world.now }
        requires log { log.now.log ≡ J.log }
        requires room { length self.old.list < 2 ^ 40 }
        requires runs { self.old.has_failed ≡ false }
        requires next { IsNext self.old letter }
        ensures works { IfOk result (Works world.now self.old self.new (Some letter)) }
        ensures failed { OnErr result ((self.new.has_failed ≡ true) × (self.new.list ≡ self.old.list)) }
    {
        let Letter {
            from,
            sent,
            note,
            of: _,
        } = letter;
        log.learn(&mut self.pass, note);
        let out = match self
            .node
            .take(alloc, world, from, sent.number, sent.message)
        {
            Ok(out) => out,
            Err(TakeRefusal::NotNext { .. }) => unreachable!(),
            Err(TakeRefusal::NoMemory) => {
                self.has_failed = true;
                return Err(NoMemory);
            }
        };
        let turn = Turn::Take(self.id, from.0);
        let Ok(letters) = commit_turn(alloc, log, &mut self.pass, &mut self.list, turn, out) else {
            self.has_failed = true;
            return Err(NoMemory);
        };
        Ok(Worked::Did(letters))
    }

    /// Whether the node has failed, its pass, and the turns that it has made.
    pub fn into_parts(self) -> (bool, NodePass<NodeMachine<W>>, Vec<PlacedTurn>)
        ensures parts { (result.0 ≡ self.has_failed) × (result.1 ≡ self.pass) × (result.2.items ≡ self.list) }
        ensures kept { IsKept W.world J.log self }
    {
        let NodeState {
            id: _,
            node: _,
            pass,
            list,
            has_failed,
            of: _,
        } = self;
        (has_failed, pass, list)
    }
}
