// What a word says by itself.
ghost use Rattle.std.specs.Prelude.{◌≡◌, ◌<◌, map, IfOk};
ghost use Rattle.std.specs.Str.{is_utf8 as is_text};
ghost use Rattle.script_words.specs.Words.{is_same, word_at, is_digit, is_lower, is_name_byte, has_name_form, is_reserved, begins_with_digit, is_minus_digits};
ghost use Rattle.std.specs.List.{list_any, list_all};
ghost use Rattle.script_words.specs.Words as spec;

use crate::faults::Kind;
use crate::limits::LONGEST_NAME;
use byte_ends::number_at;
use unix_names::{Signal, number_of, signal_named, signal_of};

/// The words that have the form of a name and are none.
const RESERVED: [&str; 8] = [
    "self",
    "maker",
    "none",
    "any",
    "at",
    "end",
    "stopped",
    "continued",
];

/// Whether a word is a given text.
#[tactic(auto, unfolding(crate::specs::Words::is_same))]
pub fn is_word(word: &[u8], text: &str) -> bool
    ensures { result ≡ is_same word.now text.now }
{
    word == text.as_bytes()
}

/// The word at a place of a line, empty where there is none.
#[tactic(auto, unfolding(crate::specs::Words::word_at))]
pub fn word_at<'a>(words: &[&'a [u8]], at: usize) -> &'a [u8]
    ensures { result.now ≡ word_at (map (λ w. w.now) words.now) at }
{
    if at < words.len() { words[at] } else { b"" }
}

fn is_digit(b: u8) -> bool
    ensures { result ≡ is_digit b }
{
    b >= b'0' && b <= b'9'
}

fn is_lower(b: u8) -> bool
    ensures { result ≡ is_lower b }
{
    b >= b'a' && b <= b'z'
}

fn is_name_byte(b: u8) -> bool
    ensures { result ≡ is_name_byte b }
{
    is_lower(b) || is_digit(b)
}

fn are_name_bytes(word: &[u8]) -> bool
    ensures { result ≡ list_all is_name_byte word.now }
{
    word.iter().all(|b| is_name_byte(*b))
}

fn are_digits(word: &[u8]) -> bool
    ensures { result ≡ list_all is_digit word.now }
{
    word.iter().all(|b| is_digit(*b))
}

// Whether a word is one of some texts.
fn is_one_of(word: &[u8], texts: &[&str]) -> bool
    ensures { result ≡ list_any (λ text. is_same word.now text.now) texts.now }
{
    texts.iter().any(|text| is_word(word, text))
}

// A lower-case letter, and then lower-case letters and digits.
#[tactic(auto, unfolding(crate::specs::Words::has_name_form))]
fn has_name_form(word: &[u8]) -> bool
    ensures { result ≡ has_name_form word.now }
{
    match word {
        [] => false,
        [first, ..] => is_lower(*first) && are_name_bytes(word),
    }
}

#[tactic(auto, unfolding(crate::specs::Words::is_reserved))]
fn is_reserved(word: &[u8]) -> bool
    ensures { result ≡ is_reserved word.now }
{
    is_one_of(word, &RESERVED)
}

/// Whether a word is a name: 1 to 16 bytes, a lower-case letter and then lower-case letters and digits, and not reserved.
#[tactic(auto, unfolding(crate::specs::Words::name))]
pub fn name(word: &[u8]) -> Result<(), Kind>
    ensures { result ≡ spec.name word.now }
{
    if !has_name_form(word) || is_reserved(word) {
        Err(Kind::UnknownWord)
    } else if word.len() > LONGEST_NAME {
        Err(Kind::LongName)
    } else {
        Ok(())
    }
}

/// The number that a word spells: 1 to 10 decimal digits, below 2^32.
#[tactic(auto, unfolding(crate::specs::Words::number))]
pub fn number(word: &[u8]) -> Result<u32, Kind>
    ensures { result ≡ spec.number word.now }
{
    if word.is_empty() {
        return Err(Kind::UnknownWord);
    }
    number_at(word).ok_or(Kind::BadNumber)
}

#[tactic(auto, unfolding(crate::specs::Words::begins_with_digit))]
fn begins_with_digit(word: &[u8]) -> bool
    ensures { result ≡ begins_with_digit word.now }
{
    match word {
        [] => false,
        [first, ..] => is_digit(*first),
    }
}

/// The number of a signal as `kill` and `action` take it: a signal's word, or any number.
#[tactic(auto, unfolding(crate::specs::Words::signal_number))]
pub fn signal_number(word: &[u8]) -> Result<u32, Kind>
    ensures { result ≡ spec.signal_number word.now }
{
    if begins_with_digit(word) {
        return number(word);
    }
    match signal_named(word) {
        Some(s) => Ok(number_of(s)),
        None => Err(Kind::UnknownWord),
    }
}

/// The signal that `mask` takes: its word or its number.
#[tactic(auto, unfolding(crate::specs::Words::signal))]
pub fn signal(word: &[u8]) -> Result<Signal, Kind>
    ensures { result ≡ spec.signal word.now }
{
    if begins_with_digit(word) {
        return signal_of(number(word)?).ok_or(Kind::BadNumber);
    }
    signal_named(word).ok_or(Kind::UnknownWord)
}

/// Whether a word is a minus and then one or more digits.
#[tactic(auto, unfolding(crate::specs::Words::is_minus_digits))]
pub fn is_minus_digits(word: &[u8]) -> bool
    ensures { result ≡ is_minus_digits word.now }
{
    match word {
        [] => false,
        [first, digits @ ..] => *first == b'-' && !digits.is_empty() && are_digits(digits),
    }
}

/// The node that a word spells.
#[tactic(auto, unfolding(crate::specs::Words::node))]
pub fn node(nodes: u32, word: &[u8]) -> Result<u32, Kind>
    ensures value { result ≡ spec.node nodes word.now }
    ensures below { IfOk result (λ n. n < nodes) }
{
    let n = number(word)?;
    if n < nodes {
        Ok(n)
    } else {
        Err(Kind::NoSuchNode)
    }
}

/// Passes a value on, where the line has no more words than these.
#[tactic(auto, unfolding(crate::specs::Words::ended))]
pub fn ended<T: Drop>(words: &[&[u8]], count: usize, value: T) -> Result<T, Kind>
    ensures value { result ≡ spec.ended (map (λ w. w.now) words.now) count value }
    ensures same { IfOk result (λ v. v ≡ value) }
{
    if words.len() <= count {
        Ok(value)
    } else {
        Err(Kind::UnknownWord)
    }
}

fn begins_with_hash(word: &[u8]) -> bool
    ensures { result ≡ spec.begins_with_hash word.now }
{
    match word {
        [] => false,
        [first, ..] => *first == b'#',
    }
}

/// Whether a line of these words says nothing: it has none, or the first begins with `#`.
#[tactic(auto, unfolding(crate::specs::Words::is_skipped))]
pub fn is_skipped(words: &[&[u8]]) -> bool
    ensures { result ≡ spec.is_skipped (map (λ w. w.now) words.now) }
{
    match words {
        [] => true,
        [first, ..] => begins_with_hash(first),
    }
}

/// Whether bytes are UTF-8.
pub fn is_utf8(line: &[u8]) -> bool
    ensures { result ≡ is_text line.now }
{
    std::str::from_utf8(line).is_ok()
}
