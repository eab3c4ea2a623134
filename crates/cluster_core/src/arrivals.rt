// What is on its way to one node.
ghost use Rattle.std.specs.Prelude.{◌≡◌, ◌<◌, ◌++◌, ◌∷◌, ◌-◌, ◌^◌, [], false, length, replicate, slice_get, slice_set, slice_index_or, IsTrue, ◌↔◌, IfOk, IfSome, OnOk, OnErr, OnSome, IfNone};
ghost use Rattle.cluster_core.specs.MethodArrivals.{first_heard, AllSilent};

use node_state::Sent;
use ordered_table::Queue;
use std::alloc::Global;
use std::marker::Model;
use unix_names::NoMemory;

/// The wires to one node, by the number of the node that sends, each with its oldest message first.
#[derive(Debug, Drop)]
pub struct Arrivals {
    wires: Vec<Queue<Sent>>,
    // Where it is false there is no message; where it is true there may be none either.
    is_heard: bool,
}

impl Model for Arrivals {
    ghost use Rattle.std.specs.Prelude.{List, ◌≡◌, false};
    ghost use Rattle.node_state.specs.declared.Sent.{Sent as TheSent};
    ghost use Rattle.cluster_core.specs.MethodArrivals.{AllSilent};

    ghost Value = { List (List TheSent) };

    ghost view = { λ a. a.wires.items };

    ghost invariant = { λ a. a.is_heard ≡ false → AllSilent a.wires.items };
}

impl Arrivals {
    /// Wires from so many nodes, with nothing on them.
    pub fn new(alloc: Global, nodes: u32) -> Result<Arrivals, NoMemory>
        ensures { IfOk result (λ a. a ≡ replicate nodes []) }
    {
        let mut wires = Vec::new(alloc);
        for _ in 0..nodes {
            wires.push(Queue::new(alloc))?;
        }
        Ok(Arrivals {
            wires,
            is_heard: false,
        })
    }

    /// A message goes to the end of the wire from a node. After NoMemory nothing has changed.
    pub fn put(&mut self, from: u32, sent: Sent) -> Result<(), NoMemory>
        requires { from < length self.old }
        ensures ok { OnOk result (self.new ≡ slice_set self.old from (slice_index_or self.old from [] ++ sent ∷ [])) }
        ensures err { OnErr result (self.new ≡ self.old) }
    {
        self.is_heard = true;
        match self.wires[from as usize].push(sent) {
            Ok(()) => Ok(()),
            Err(_) => Err(NoMemory),
        }
    }

    /// The oldest message on the wire from a node is taken. None exactly where there is none, or no such node.
    pub fn take(&mut self, from: u32) -> Option<Sent>
        ensures some { IfSome result (λ sent. slice_index_or self.old from [] ≡ sent ∷ slice_index_or self.new from []) }
        ensures others { OnSome result (self.new ≡ slice_set self.old from (slice_index_or self.new from [])) }
        ensures none { IfNone result (slice_index_or self.old from [] ≡ []) }
        ensures kept { IfNone result (self.new ≡ self.old) }
    {
        match self.wires.get_mut(from as usize) {
            Some(wire) => wire.pop(),
            None => None,
        }
    }

    /// The first node from which a message is on its way. None exactly where there is none.
    pub fn first(&mut self) -> Option<u32>
        requires { length self.old < 2 ^ 32 }
        ensures first { result ≡ first_heard 0 self.old }
        ensures kept { self.new ≡ self.old }
    {
        if !self.is_heard {
            return None;
        }
        let found = first_with(&self.wires);
        self.is_heard = found.is_some();
        found
    }
}

// The number of the first wire that has a message.
#[tactic(auto, using(crate::proofs::Hearing::heard_later, crate::proofs::Hearing::heard_here, crate::proofs::Hearing::heard_end))]
fn first_with(wires: &[Queue<Sent>]) -> Option<u32>
    requires { length wires.now < 2 ^ 32 }
    ensures { result ≡ first_heard 0 wires.now }
{
    let mut from = 0;
    for wire in wires {
        if !wire.is_empty() {
            return Some(from);
        }
        from += 1;
    }
    None
}
