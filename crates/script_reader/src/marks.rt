// The starts of a file up to the first line with a fault of its own.
ghost use Rattle.std.specs.Prelude.{◌≡◌, ◌+◌, ◌≤◌, [], ◌∷◌, List, None as none, OnOk, length};
ghost use Rattle.unix_calls.specs.declared.Start.{Start};
ghost use Rattle.unix_calls.specs.declared.Work.{Work};
ghost use Rattle.script_words.specs.Words.{Row};
ghost use Rattle.script_reader.specs.Files.{Told};
ghost use Rattle.script_reader.specs.MethodReading.{HasNode, HaveNodes, judged_with, started as start_in};

use crate::lines::{Item, StartLine};
use script_words::{Fault, Kind};
use std::alloc::Global;
use unix_names::{NoMemory, Seq};

/// A start, and the number of its line.
#[derive(Clone, Copy, Debug, PartialEq, Eq)]
pub struct NumberedStart {
    pub number: u32,
    pub line: StartLine,
}

/// The starts of the lines so far up to the first that has a fault of its own, and that fault.
#[derive(Drop)]
pub struct Marks {
    pub starts: Seq<NumberedStart>,
    pub fault: Option<Fault>,
}

impl Marks {
    /// Before the first line.
    pub(crate) fn new(alloc: Global) -> Marks
        ensures starts { result.starts ≡ [] }
        ensures fault { result.fault ≡ none }
    {
        Marks {
            starts: Seq::new(alloc),
            fault: None,
        }
    }

    /// Takes what the next line says. Behind a fault no start counts.
    pub(crate) fn take_line(
        &mut self,
        number: u32,
        read: &Result<Item, Kind>,
    ) -> Result<(), NoMemory>
        requires node { HasNode read.now }
        requires nodes { HaveNodes self.old.starts }
        ensures nodes { OnOk result (HaveNodes self.new.starts) }
        ensures few { OnOk result (length self.new.starts ≤ length self.old.starts + 1) }
        ensures judged { OnOk result ((works : List Work) (earlier : List Start) (row : Row) (rest : List Told)
            → judged_with works earlier self.new.starts self.new.fault (number + 1) rest
            ≡ judged_with works earlier self.old.starts self.old.fault number ((row, read.now) ∷ rest)) }
    {
        if self.fault.is_some() {
            return Ok(());
        }
        match started(read) {
            Err(kind) => {
                self.fault = Some(Fault { line: number, kind });
                Ok(())
            }
            Ok(Some(line)) => {
                self.starts.push(NumberedStart { number, line })?;
                Ok(())
            }
            Ok(None) => Ok(()),
        }
    }
}

// The start that a line says, or its fault.
fn started(read: &Result<Item, Kind>) -> Result<Option<StartLine>, Kind>
    ensures { result ≡ start_in read.now }
{
    match read {
        Err(kind) => Err(*kind),
        Ok(Item::Starts(line)) => Ok(Some(*line)),
        Ok(_) => Ok(None),
    }
}
