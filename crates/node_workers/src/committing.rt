// A turn that a node has made gets its place, and its messages become letters.
ghost use Rattle.std.specs.Prelude.{◌≡◌, ◌+◌, ◌<◌, ◌≤◌, ◌^◌, ◌++◌, length, map, All, Some, slice_get, IfOk, OnOk, OnErr};
ghost use Rattle.std.specs.VecDeque.{deque_len, deque_capacity};
ghost use Rattle.unix_calls.specs.declared.Turn.{Turn as TheTurn};
ghost use Rattle.node_state.specs.declared.Sent.{Sent as TheSent};
ghost use Rattle.node_state.specs.Wires.{sent_off};
ghost use Rattle.node_state.specs.declared.State.{State as TheState};
ghost use Rattle.node_core.specs.Advance.{Advanced};
ghost use Rattle.cluster_state.specs.Possible.{node_of};
ghost use Rattle.cluster_laws.specs.Turns.{GoesToANode};
ghost use Rattle.ops_vector.specs.Answer.{unix_answer};
ghost use Rattle.locked_laws.specs.Locked.{IsNode, IsLetter};
ghost use Rattle.node_workers.specs.Views.{letter_of};
ghost use Rattle.node_workers.specs.MethodCommitting.{CanCommit, IsCommitted};

use crate::letters::{Letter, Letters};
use crate::machine::NodeMachine;
use crate::names::{LogName, WorldName};
use commit_log::{CommitLog, NodePass};
use locked_laws::PlacedTurn;
use node_core::StepOut;
use node_state::Sent;
use std::alloc::Global;
use std::collections::VecDeque;
use std::marker::PhantomData;
use unix_calls::Turn;
use unix_names::{NoMemory, NodeId, Seq};

// The messages of a turn that has its place become letters. It takes no memory.
fn write_letters<W: WorldName, J: LogName>(
    log: &CommitLog<NodeMachine<W>>,
    pass: &mut NodePass<NodeMachine<W>>,
    from: u32,
    sends: Seq<Sent>,
    letters: &mut VecDeque<Letter<W, J>>,
)
    requires log { (log.now.log ≡ J.log) × (pass.old.log ≡ J.log) }
    requires inside { from < W.world.nodes }
    requires room { deque_len letters.old + length sends ≤ deque_capacity letters.old }
    requires fly { All (λ sent. IsLetter W.world unix_answer pass.old.seen from sent.to sent.number sent) sends }
    ensures same { pass.new ≡ pass.old }
    ensures letters { letters.new.items ≡ letters.old.items ++ map (letter_of from pass.old.seen) sends }
{
    let mut rest = VecDeque::from_vec(sends.into_vec());
    while let Some(sent) = rest.pop_front() {
        let note = log.note(pass);
        letters.push_back_reserved(Letter {
            from: NodeId(from),
            sent,
            note,
            of: PhantomData,
        });
    }
}

/// Gives a turn that a node has made its place, notes it in the node's list, and makes letters of its messages. All memory is found before the turn has its place.
///
/// # Errors
/// NoMemory where the list or the letters find none; the turn then has no place, and pass and list are as before.
pub fn commit_turn<W: WorldName, J: LogName>(
    alloc: Global,
    log: &CommitLog<NodeMachine<W>>,
    pass: &mut NodePass<NodeMachine<W>>,
    list: &mut Vec<PlacedTurn>,
    turn: Turn,
    out: StepOut,
) -> Result<Letters<W, J>, NoMemory>
    requires log { (log.now.log ≡ J.log) × (pass.old.log ≡ J.log) }
    requires inside { pass.old.node < W.world.nodes }
    requires may { CanCommit W.world pass.old list.old.items turn out }
    requires room { length list.old.items < 2 ^ 40 }
    ensures committed { IfOk result (λ letters. IsCommitted pass.old list.old.items turn out pass.new list.new.items letters) }
    ensures node { (may : CanCommit W.world pass.old list.old.items turn out) → OnOk result (IsNode W.world unix_answer pass.new.seen pass.old.node (sent_off may.advanced.state) list.new.items) }
    ensures err { OnErr result ((pass.new ≡ pass.old) × (list.new.items ≡ list.old.items)) }
{
    let mut letters = VecDeque::with_capacity(alloc, out.sends.len())?;
    list.reserve(1)?;
    let node = node_of(turn);
    let place = log.commit(pass, turn);
    let made = PlacedTurn {
        place,
        turn,
        line: out.entry,
    };
    let Ok(()) = list.push(made) else {
        unreachable!()
    };
    write_letters(log, pass, node, out.sends, &mut letters);
    Ok(Letters { items: letters })
}

// Whose turn it is.
fn node_of(turn: Turn) -> u32
    ensures { result ≡ node_of turn }
{
    match turn {
        Turn::Go(k) | Turn::Push(k, _) | Turn::Take(k, _) => k,
        Turn::Auto(_) => 0,
    }
}
