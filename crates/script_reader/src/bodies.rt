// The scripts of a file, line by line.
ghost use Rattle.std.specs.Prelude.{◌≡◌, [], ◌∷◌, ◌++◌, true, false, if◌then◌else◌, List, map, IfOk, OnOk};
ghost use Rattle.script_reader.specs.MethodReading.{scripts_with};
ghost use Rattle.script_reader.specs.Files.{Told, body, scripts_of};
ghost use Rattle.script_reader.specs.Files as spec;

use crate::gather::begins_with;
use crate::lines::Item;
use script_words::Kind;
use std::alloc::Global;
use std::mem;
use unix_calls::{Script, Statement};
use unix_names::{NoMemory, Seq};

// The statement that a line says, where it has no fault.
fn said(read: &Result<Item, Kind>) -> Option<Statement>
    ensures { result ≡ spec.said read.now }
{
    match read {
        Ok(Item::Says(statement)) => Some(*statement),
        _ => None,
    }
}

/// The scripts of the lines so far: those before the last one, and the statements of the last one, if one has begun.
#[derive(Drop)]
pub struct Bodies {
    pub whole: Seq<Script>,
    pub begun: bool,
    pub last: Seq<Statement>,
}

impl Bodies {
    /// Before the first line.
    #[tactic(auto, unfolding(crate::specs::MethodReading::scripts_with))]
    pub(crate) fn new(alloc: Global) -> Bodies
        ensures { result ≡ record { whole = []; begun = false; last = [] } }
    {
        Bodies {
            whole: Seq::new(alloc),
            begun: false,
            last: Seq::new(alloc),
        }
    }

    /// Takes the next line, given its words and what it says.
    #[tactic(auto, unfolding(crate::specs::MethodReading::scripts_with))]
    pub(crate) fn take_line(
        &mut self,
        alloc: Global,
        words: &[&[u8]],
        read: &Result<Item, Kind>,
    ) -> Result<(), NoMemory>
        ensures { OnOk result ((rest : List Told) → scripts_with self.new rest ≡ scripts_with self.old ((map (λ w. w.now) words.now, read.now) ∷ rest)) }
    {
        if begins_with(words, "script") {
            self.begin(alloc)?;
        } else {
            match said(read) {
                Some(statement) => self.last.push(statement)?,
                None => {}
            }
        }
        Ok(())
    }

    // Begins a script. What was said before the first one belongs to none.
    fn begin(&mut self, alloc: Global) -> Result<(), NoMemory>
        ensures begun { OnOk result (self.new.begun ≡ true) }
        ensures last { OnOk result (self.new.last ≡ []) }
        ensures whole { OnOk result (self.new.whole ≡ (if self.old.begun then self.old.whole ++ record { statements = self.old.last } ∷ [] else self.old.whole)) }
    {
        let statements = mem::replace(&mut self.last, Seq::new(alloc));
        if self.begun {
            self.whole.push(Script { statements })?;
        }
        self.begun = true;
        Ok(())
    }

    /// The scripts, behind the last line.
    #[tactic(auto, unfolding(crate::specs::MethodReading::scripts_with))]
    pub(crate) fn finish(self) -> Result<Seq<Script>, NoMemory>
        ensures { IfOk result (λ scripts. scripts ≡ scripts_with self []) }
    {
        let Bodies {
            mut whole,
            begun,
            last,
        } = self;
        if begun {
            whole.push(Script { statements: last })?;
        }
        Ok(whole)
    }
}
