// The state of a node.
ghost use Rattle.std.specs.Prelude.{◌≡◌, ◌+◌, slice_index, slice_set, OnOk, OnErr, IfOk};

use crate::ready::ReadyQueue;
use courier_core::{Courier, Message};
use ordered_table::SparseTable;
use proc_image::Image;
use record_table::Slots;
use unix_names::{NoMemory, Seq};

/// A message that a turn sends: to which node, the message's number on the wire there, counted from 0, and the message.
#[derive(Debug, Drop)]
pub struct Sent {
    pub to: u32,
    pub number: u64,
    pub message: Message,
}

/// All that a node holds. Between two turns nothing waits to be sent.
///
/// A call that answers NoMemory may have made a part of its change. The node has then failed for good, and its state is of no use.
#[derive(Debug, Drop)]
pub struct State {
    /// The number of the node.
    pub id: u32,
    /// How many nodes there are.
    pub nodes: u32,
    /// The records whose home is here.
    pub slots: Slots<Courier>,
    /// Those who wait for their turn.
    pub ready: ReadyQueue,
    /// The images that sleep or are stopped, by process.
    pub parked: SparseTable<Image>,
    /// The processes that were told to go on while their images were not here.
    pub marks: SparseTable<bool>,
    /// What the next process id that is given out here is above the node's first one.
    pub serial: u32,
    /// How many messages were sent to each node.
    pub sent: Seq<u64>,
    /// How many messages of each node were taken.
    pub taken: Seq<u64>,
    /// What the turn sends, in order.
    pub out: Seq<Sent>,
}

/// One more message of a wire is counted. Gives its number.
#[tactic(auto, using(crate::proofs::WireLaws::wire_laws))]
fn count_up(numbers: &mut Seq<u64>, at: u32) -> Result<u64, NoMemory>
    ensures number { IfOk result (λ number. number ≡ slice_index numbers.old at) }
    ensures counted { OnOk result (numbers.new ≡ slice_set numbers.old at (slice_index numbers.old at + 1)) }
    ensures err { OnErr result (numbers.new ≡ numbers.old) }
{
    let at = at as usize;
    let number = numbers.get(at).copied().unwrap_or(0);
    let Some(next) = number.checked_add(1) else {
        return Err(NoMemory);
    };
    if at < numbers.len() {
        numbers.replace(at, next);
    }
    Ok(number)
}

impl State {
    ghost use Rattle.node_state.specs.Wires.{posted, one_taken};

    /// Sends a message with the next number of its wire.
    pub fn post(&mut self, to: u32, message: Message) -> Result<(), NoMemory>
        ensures { OnOk result (self.new ≡ posted self.old to message) }
    {
        let number = count_up(&mut self.sent, to)?;
        self.out.push(Sent {
            to,
            number,
            message,
        })?;
        Ok(())
    }

    /// One more message of a node is taken. After NoMemory nothing has changed.
    pub fn count_taken(&mut self, from: u32) -> Result<(), NoMemory>
        ensures ok { OnOk result (self.new ≡ one_taken self.old from) }
        ensures err { OnErr result (self.new ≡ self.old) }
    {
        count_up(&mut self.taken, from)?;
        Ok(())
    }
}
