// The numbers of names, in the order of the file.
ghost use Rattle.std.specs.Prelude.{◌≡◌, [], length, OnOk};
ghost use Rattle.script_reader.specs.Names.{number_in, noted};

use indexmap::IndexMap;
use std::alloc::Global;
use std::marker::Model;
use unix_names::NoMemory;

/// Words with their numbers, in the order of the file. The first number of a word stands.
#[derive(Drop)]
pub struct Numbers<'a> {
    first: IndexMap<&'a [u8], usize>,
}

impl<'a> Model for Numbers<'a> {
    ghost use Rattle.std.specs.Prelude.{ℕ, List};

    ghost Value = { List (List ℕ × ℕ) };

    ghost use Rattle.std.specs.Prelude.{map};

    ghost view = { λ n. map (λ e. (e.0.now, e.1)) n.first.entries };
}

impl<'a> Numbers<'a> {
    pub(crate) fn new(alloc: Global) -> Numbers<'a>
        ensures { result ≡ [] }
    {
        Numbers {
            first: IndexMap::new(alloc),
        }
    }

    /// How many words there are.
    pub(crate) fn len(&self) -> usize
        ensures { result ≡ length self.now }
    {
        self.first.len()
    }

    /// The number of a word, where it has one.
    pub(crate) fn number_of(&self, word: &'a [u8]) -> Option<usize>
        ensures { result ≡ number_in self.now word.now }
    {
        self.first.get(&word).copied()
    }

    /// Gives a word a number, unless it has one.
    pub(crate) fn note(&mut self, word: &'a [u8], number: usize) -> Result<(), NoMemory>
        ensures { OnOk result (self.new ≡ noted self.old word.now number) }
    {
        if self.number_of(word).is_none() {
            self.first.insert(word, number)?;
        }
        Ok(())
    }
}

/// The names of a file with their numbers.
#[derive(Drop)]
pub struct Names<'a> {
    /// Each script's, counting the lines that begin with `script`.
    pub scripts: Numbers<'a>,
    /// Each start's, counting the lines that begin with `start`, under its variable.
    pub starts: Numbers<'a>,
    /// Each variable's: first those of forks, then the others of starts.
    pub variables: Numbers<'a>,
}
