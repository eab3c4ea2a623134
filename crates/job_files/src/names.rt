// The names of jobs, in the order of their lines.
ghost use Rattle.std.specs.Prelude.{◌≡◌, [], ◌∷◌, ◌++◌, position, OnOk};
ghost use Rattle.std.specs.Str.{bytes_eq};

use std::alloc::Global;
use std::marker::Model;
use unix_names::NoMemory;

/// The names of the jobs so far. A job's number is the place of its name.
#[derive(Drop)]
pub struct Names<'a> {
    words: Vec<&'a [u8]>,
}

impl<'a> Model for Names<'a> {
    ghost use Rattle.std.specs.Prelude.{ℕ, List};

    ghost Value = { List (List ℕ) };

    ghost use Rattle.std.specs.Prelude.{map};

    ghost view = { λ n. map (λ w. w.now) n.words.items };
}

impl<'a> Names<'a> {
    pub(crate) fn new(alloc: Global) -> Names<'a>
        ensures { result ≡ [] }
    {
        Names {
            words: Vec::new(alloc),
        }
    }

    /// The place of a name, where it is one of these.
    pub(crate) fn number_of(&self, word: &[u8]) -> Option<usize>
        ensures { result ≡ position (λ name. bytes_eq name word.now) self.now }
    {
        place_of(&self.words, word)
    }

    /// Takes one name more.
    pub(crate) fn push(&mut self, word: &'a [u8]) -> Result<(), NoMemory>
        ensures { OnOk result (self.new ≡ self.old ++ word.now ∷ []) }
    {
        self.words.push(word)?;
        Ok(())
    }
}

// The first place of a word.
fn place_of(words: &[&[u8]], word: &[u8]) -> Option<usize>
    ensures { result ≡ position (λ other. bytes_eq other.now word.now) words.now }
{
    words.iter().position(|other| *other == word)
}
