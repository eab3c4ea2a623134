// The log: its passes, and the places that they draw.
ghost use Rattle.std.specs.Prelude.{◌≡◌, ℕ, ◌+◌, ◌^◌, ◌<◌, ◌≤◌, [], ◌∷◌, ◌++◌, length, List, Option, Some, All, IfOk};
ghost use Rattle.pasts.specs.Pasts.{steps_of, union};
ghost use Rattle.past_lists.specs.Own.{added, count, own_list};
ghost use Rattle.past_lists.specs.Beginnings.{IsLonger};
ghost use Rattle.commit_log.specs.Passes.{Opened, first_passes, MeetIn, AreAllOf};
ghost use Rattle.commit_log.specs.MethodWord.{knower, fresh, rest_knowers};

use crate::machine::Machine;
use crate::pass::{NodePass, Note};
use crate::word::{Commits, Deals, Gathers, Knower, Law, Saying, Tells, Unites};
use atomic_table::{Seat, Table};
use std::alloc::Global;
use std::collections::LinkedList;
use std::marker::{Brand, Model, PhantomData};
use unix_names::NoMemory;

/// The one order of all steps, in which each step has a place. Contracts see which log it is, and for how many nodes.
#[derive(Drop)]
pub struct CommitLog<M: Machine> {
    table: Table<(), LinkedList<Knower<M::Step>>, u64, Law<M>, Global>,
}

impl<M: Machine> Model for CommitLog<M> {
    ghost Value = { Opened };

    ghost view = { λ w. record { log = w.table.shared.table_id; nodes = w.table.shared.key } };

    ghost invariant = { λ w. (w.table.shared.table_id.words ≡ 1) × (w.table.shared.table_id.slots ≡ 0) × (0 < w.table.shared.key) × (w.table.shared.key ≤ 1024) };
}

impl<M: Machine> CommitLog<M> {
    /// An empty log, and a pass for each node, in order.
    pub fn new(alloc: Global, nodes: u32) -> Result<(CommitLog<M>, Vec<NodePass<M>>), NoMemory>
        requires { (0 < nodes) × (nodes ≤ 1024) }
        ensures log { IfOk result (λ r. r.0.nodes ≡ nodes) }
        ensures passes { IfOk result (λ r. r.1.items ≡ first_passes r.0.log 0 nodes) }
    {
        let key = u64::from(nodes);
        let (table, seat) = Table::of_words(alloc, &[0], &key)?;
        let log = CommitLog { table };
        let passes = log.deal_all(alloc, seat, nodes)?;
        Ok((log, passes))
    }

    /// A pass for each node, in order, from the seat of them all.
    fn deal_all(
        &self,
        alloc: Global,
        mut seat: Seat<(), LinkedList<Knower<M::Step>>>,
        nodes: u32,
    ) -> Result<Vec<NodePass<M>>, NoMemory>
        requires table { seat.table_id ≡ self.now.log }
        requires all { seat.me ≡ (fresh 0 nodes, []) }
        ensures { IfOk result (λ v. v.items ≡ first_passes self.now.log 0 nodes) }
    {
        let mut passes = Vec::with_capacity(alloc, nodes as usize)?;
        let mut k = 0;
        while k < nodes {
            passes.push(self.deal(&mut seat, k))?;
            k += 1;
        }
        Ok(passes)
    }

    /// The pass of the first node that is left on the seat.
    fn deal(&self, seat: &mut Seat<(), LinkedList<Knower<M::Step>>>, k: u32) -> NodePass<M>
        requires table { seat.old.table_id ≡ self.now.log }
        requires first { seat.old.me ≡ (knower (Some k) [] ∷ rest_knowers seat.old.me.0, []) }
        ensures seat { (seat.new.table_id ≡ seat.old.table_id) × (seat.new.me ≡ (rest_knowers seat.old.me.0, [])) }
        ensures pass { result ≡ record { log = seat.old.table_id; node = k; seen = [] } }
    {
        NodePass {
            seat: self.table.shared.split_seat::<Deals>(seat),
            of: PhantomData,
        }
    }

    /// Gives the step of the pass's node its place, which is above every place that the pass had seen. The pass then has this step there, beside all that it had.
    pub fn commit(&self, pass: &mut NodePass<M>, step: M::Step) -> u64
        requires pass { pass.old.log ≡ self.now.log }
        requires node { M.node_of step ≡ pass.old.node }
        requires lawful { M.lawful (steps_of pass.old.seen ++ step ∷ []) }
        requires room { count M.node_of pass.old.node (steps_of pass.old.seen) < 2 ^ 40 }
        ensures above { length pass.old.seen ≤ result }
        ensures same { (pass.new.log ≡ pass.old.log) × (pass.new.node ≡ pass.old.node) }
        ensures seen { pass.new.seen ≡ added pass.old.seen result step }
    {
        self.commit_as::<Brand>(pass, step)
    }

    /// The same, where the type says which step it is.
    fn commit_as<T: Saying<M::Step>>(&self, pass: &mut NodePass<M>, step: M::Step) -> u64
        requires said { T.said ≡ Some step }
        requires pass { pass.old.log ≡ self.now.log }
        requires node { M.node_of step ≡ pass.old.node }
        requires lawful { M.lawful (steps_of pass.old.seen ++ step ∷ []) }
        requires room { count M.node_of pass.old.node (steps_of pass.old.seen) < 2 ^ 40 }
        ensures above { length pass.old.seen ≤ result }
        ensures same { (pass.new.log ≡ pass.old.log) × (pass.new.node ≡ pass.old.node) }
        ensures seen { pass.new.seen ≡ added pass.old.seen result step }
    {
        self.table
            .shared
            .fetch_add::<Commits<T>>(&mut pass.seat, 0, 1)
    }

    /// A note that has seen exactly what the pass has. The pass stays.
    pub fn note(&self, pass: &mut NodePass<M>) -> Note<M>
        requires { pass.old.log ≡ self.now.log }
        ensures same { pass.new ≡ pass.old }
        ensures note { result ≡ record { log = pass.old.log; seen = pass.old.seen } }
    {
        Note {
            seat: self.table.shared.split_seat::<Tells>(&mut pass.seat),
            of: PhantomData,
        }
    }

    /// The pass then has seen exactly what it or the note had: of each node the longer of two lists, which the other begins. It is lawful, and the node's own steps stay.
    pub fn learn(&self, pass: &mut NodePass<M>, note: Note<M>)
        requires pass { pass.old.log ≡ self.now.log }
        requires note { note.log ≡ self.now.log }
        ensures same { (pass.new.log ≡ pass.old.log) × (pass.new.node ≡ pass.old.node) }
        ensures both { pass.new.seen ≡ union pass.old.seen note.seen }
        ensures longer { (n : ℕ) → IsLonger (own_list M.node_of n 0 pass.old.seen) (own_list M.node_of n 0 note.seen) (own_list M.node_of n 0 pass.new.seen) }
        ensures own { own_list M.node_of pass.old.node 0 pass.new.seen ≡ own_list M.node_of pass.old.node 0 pass.old.seen }
        ensures lawful { M.lawful (steps_of pass.new.seen) }
        ensures one { (log : List M.Step) × MeetIn M.node_of M.lawful log pass.old note.seen }
    {
        let Note { seat, of: _ } = note;
        self.table.shared.join_seat::<Gathers>(&mut pass.seat, seat);
        self.table.shared.load::<Unites<M>>(&mut pass.seat, 0);
    }

    /// The number of places that were drawn. No two passes of a log are of one node, so these are the passes of all nodes. Their steps have the places from 0 to that number less 1, each once, and are by place one lawful list.
    pub fn close(self, mut passes: Vec<NodePass<M>>, notes: Vec<Note<M>>) -> u64
        requires count { length passes.items ≡ self.nodes }
        requires logs { All (λ p. p.log ≡ self.log) passes.items }
        ensures { (log : List M.Step) × (length log ≡ result) × AreAllOf M.node_of M.lawful log self.nodes passes.items }
    {
        drop(notes);
        let Some(first) = passes.pop() else {
            unreachable!()
        };
        let NodePass {
            seat: mut all,
            of: _,
        } = first;
        while let Some(pass) = passes.pop() {
            let NodePass { seat, of: _ } = pass;
            self.table.shared.join_seat::<Gathers>(&mut all, seat);
        }
        let CommitLog { table } = self;
        let closed = table.close_with(all);
        let places = closed.word(0);
        closed.free();
        places
    }
}
