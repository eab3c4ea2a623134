// What a line is beside an entry.
ghost use Rattle.std.specs.Prelude.{◌≡◌, ◌||◌, codes, map};
ghost use Rattle.file_parts.specs.Parts.{stands_alone};

use script_words::is_word;

/// Whether a line of these words has one, a given text.
#[tactic(auto, unfolding(script_words::specs::Words::is_same))]
pub fn is_only(words: &[&[u8]], text: &str) -> bool
    ensures { result ≡ stands_alone text.now (map (λ w. w.now) words.now) }
{
    match words {
        [only] => is_word(only, text),
        _ => false,
    }
}

/// Whether a line of these words is the last one of a history.
pub fn is_last(words: &[&[u8]]) -> bool
    ensures { let ws = map (λ w. w.now) words.now in result ≡ (stands_alone (codes "quiet") ws || stands_alone (codes "open") ws) }
{
    is_only(words, "quiet") || is_only(words, "open")
}
