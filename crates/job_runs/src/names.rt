// The names of a file's jobs.
ghost use Rattle.std.specs.Prelude.{◌≡◌, ◌++◌, map, IfOk, OnOk};
ghost use Rattle.byte_ends.specs.Text.{lines as lines_in, words as words_in};
ghost use Rattle.job_runs.specs.MethodNames as spec;

use byte_ends::{next_line, take_words};
use script_words::is_word;
use std::alloc::Global;
use unix_names::NoMemory;

/// The names that the lines of a job file give to its jobs, by their numbers.
pub fn job_names(alloc: Global, text: &[u8]) -> Result<Vec<&[u8]>, NoMemory>
    ensures { IfOk result (λ names. map (λ w. w.now) names.items ≡ spec.names_in (map words_in (lines_in text.now))) }
{
    let mut names = Vec::new(alloc);
    let mut words = Vec::new(alloc);
    let mut at = 0;
    while let Some((from, to, next)) = next_line(text, at) {
        take_words(&mut words, &text[from..to])?;
        note(&mut names, &words)?;
        at = next;
    }
    Ok(names)
}

// Takes the name that a line of these words gives to a job, where it gives one.
#[tactic(auto, unfolding(crate::specs::MethodNames::named_in))]
fn note<'a>(names: &mut Vec<&'a [u8]>, words: &[&'a [u8]]) -> Result<(), NoMemory>
    ensures { OnOk result (map (λ w. w.now) names.new.items ≡ map (λ w. w.now) names.old.items ++ spec.named_in (map (λ w. w.now) words.now)) }
{
    if let [first, name, ..] = words {
        if is_word(first, "job") {
            names.push(name)?;
        }
    }
    Ok(())
}
