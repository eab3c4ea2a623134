// Messages between locked nodes, each with a note of what its sender knew.
ghost use Rattle.std.specs.Prelude.{◌≡◌, [], ◌∷◌, ◌++◌, IfSome, IfNone, IfErr, OnOk, OnErr};

use crate::machine::NodeMachine;
use crate::names::{LogName, WorldName};
use commit_log::Note;
use node_state::Sent;
use std::alloc::Global;
use std::collections::VecDeque;
use std::marker::{Model, PhantomData};
use std::sync::{Mutex, Wait};
use unix_names::NodeId;

/// A message on its way, with a note that was made after its turn had its place: after the turns that the note knows, the message is on its wire with its number.
#[derive(Drop)]
pub struct Letter<W: WorldName, J: LogName> {
    pub(crate) from: NodeId,
    pub(crate) sent: Sent,
    pub(crate) note: Note<NodeMachine<W>>,
    pub(crate) of: PhantomData<J>,
}

impl<W: WorldName, J: LogName> Model for Letter<W, J> {
    ghost use Rattle.node_workers.specs.Views.{LetterView, IsLetterOf};

    ghost Value = { LetterView };

    ghost view = { λ l. record { from = l.from; sent = l.sent; seen = l.note.seen } };

    ghost invariant = { λ l. IsLetterOf W.world J.log l.from l.sent l.note };
}

/// Letters in order, which contracts see as their list.
#[derive(Drop)]
pub struct Letters<W: WorldName, J: LogName> {
    pub(crate) items: VecDeque<Letter<W, J>>,
}

impl<W: WorldName, J: LogName> Model for Letters<W, J> {
    ghost use Rattle.std.specs.Prelude.{List};
    ghost use Rattle.node_workers.specs.Views.{LetterView};

    ghost Value = { List LetterView };

    ghost view = { λ l. l.items.items };
}

impl<W: WorldName, J: LogName> Letters<W, J> {
    /// No letters. It takes no memory.
    pub fn new(alloc: Global) -> Letters<W, J>
        ensures { result ≡ [] }
    {
        Letters {
            items: VecDeque::new(alloc),
        }
    }

    /// The letter joins the end. One that finds no memory comes back.
    pub fn give(&mut self, letter: Letter<W, J>) -> Result<(), Letter<W, J>>
        ensures ok { OnOk result (self.new ≡ self.old ++ letter ∷ []) }
        ensures err { OnErr result (self.new ≡ self.old) }
        ensures back { IfErr result (λ l. l ≡ letter) }
    {
        self.items
            .push_back(letter)
            .map_err(|refused| refused.value)
    }

    /// The first letter is taken out. None exactly where there is none. It takes no memory.
    pub fn next(&mut self) -> Option<Letter<W, J>>
        ensures some { IfSome result (λ l. self.old ≡ l ∷ self.new) }
        ensures none { IfNone result (self.old ≡ []) }
        ensures none_new { IfNone result (self.new ≡ []) }
    {
        self.items.pop_front()
    }
}

/// Letters behind a lock.
#[derive(Drop)]
pub struct Inbox<W: WorldName, J: LogName> {
    letters: Mutex<Letters<W, J>>,
}

impl<W: WorldName, J: LogName> Inbox<W, J> {
    /// An inbox without letters.
    pub fn new(alloc: Global) -> Inbox<W, J> {
        Inbox {
            letters: Mutex::new(Letters::new(alloc)),
        }
    }

    /// The letter joins the end. One that finds no memory comes back.
    pub fn put<R: Wait>(&self, rt: &R, letter: Letter<W, J>) -> Result<(), Letter<W, J>>
        ensures { IfErr result (λ l. l ≡ letter) }
    {
        self.letters.lock(rt).give(letter)
    }

    /// The first letter is taken out, if there is one. It takes no memory.
    pub fn next<R: Wait>(&self, rt: &R) -> Option<Letter<W, J>> {
        self.letters.lock(rt).next()
    }
}
