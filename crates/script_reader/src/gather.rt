// The names that the lines of a file give.
ghost use Rattle.std.specs.Prelude.{◌≡◌, [], ◌∷◌, ◌++◌, map, IfOk, OnOk};
ghost use Rattle.script_reader.specs.Files.{begins_with, words_behind, numbered, listed, gather as gathered};
ghost use Rattle.script_reader.specs.MethodCuts.{cut_rows, row_of};

use crate::cuts::Cut;
use crate::names::{Names, Numbers};
use script_words::{is_word, word_at};
use std::alloc::Global;
use unix_names::NoMemory;

/// Whether a line's first word is this one.
#[tactic(auto, unfolding(crate::specs::Files::begins_with))]
pub fn begins_with(words: &[&[u8]], first: &str) -> bool
    ensures { result ≡ begins_with first.now (map (λ w. w.now) words.now) }
{
    is_word(word_at(words, 0), first)
}

// Takes the word at a place of a line too, where the line begins with a given word.
fn collect<'a>(
    found: &mut Vec<&'a [u8]>,
    words: &[&'a [u8]],
    first: &str,
    at: usize,
) -> Result<(), NoMemory>
    ensures { OnOk result (map (λ w. w.now) found.new.items
        ≡ map (λ w. w.now) found.old.items ++ words_behind first.now at (map (λ w. w.now) words.now ∷ [])) }
{
    if begins_with(words, first) {
        found.push(word_at(words, at))?;
    }
    Ok(())
}

// Words with their places, the first place of each.
fn numbered<'a>(alloc: Global, words: &[&'a [u8]]) -> Result<Numbers<'a>, NoMemory>
    ensures { IfOk result (λ n. n ≡ numbered [] 0 (map (λ w. w.now) words.now)) }
{
    let mut numbers = Numbers::new(alloc);
    for (n, word) in words.iter().enumerate() {
        numbers.note(*word, n)?;
    }
    Ok(numbers)
}

// Gives each word that lacks a number the next one.
fn list<'a>(numbers: &mut Numbers<'a>, words: &[&'a [u8]]) -> Result<(), NoMemory>
    ensures { OnOk result (numbers.new ≡ listed numbers.old (map (λ w. w.now) words.now)) }
{
    for word in words {
        let next = numbers.len();
        numbers.note(*word, next)?;
    }
    Ok(())
}

/// The names that the lines of a text give.
#[tactic(auto, unfolding(crate::specs::Files::gather))]
pub fn gather<'a>(alloc: Global, cut: &Cut<'a>) -> Result<Names<'a>, NoMemory>
    ensures { IfOk result (λ names. names ≡ gathered (map row_of (cut_rows cut.now.words.items 0 cut.now.lines.items))) }
{
    let mut scripts = Vec::new(alloc);
    let mut forks = Vec::new(alloc);
    let mut starts = Vec::new(alloc);
    let mut from = 0;
    for line in &cut.lines {
        // A blank line gives no name.
        if line.word_count == 0 {
            continue;
        }
        let to = from + line.word_count as usize;
        let words = &cut.words[from..to];
        collect(&mut scripts, words, "script", 1)?;
        collect(&mut forks, words, "fork", 1)?;
        collect(&mut starts, words, "start", 3)?;
        from = to;
    }
    let mut variables = Numbers::new(alloc);
    list(&mut variables, &forks)?;
    list(&mut variables, &starts)?;
    Ok(Names {
        scripts: numbered(alloc, &scripts)?,
        starts: numbered(alloc, &starts)?,
        variables,
    })
}
