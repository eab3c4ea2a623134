// Histories of format 2, written and read.
ghost use Rattle.std.specs.Prelude.{◌≡◌, ◌≤◌, ◌<◌, ◌^◌, ◌↔◌, ◌++◌, ◌∷◌, [], ℕ, List, All, IsTrue, IfOk, IfSome, IfNone, IsNone, OnOk, length, map, drop, slice_range, codes, Err};
ghost use Rattle.std.specs.Fmt.{decimal};
ghost use Rattle.std.specs.String.{string_bytes};
ghost use Rattle.byte_ends.specs.Text.{lines};
ghost use Rattle.unix_calls.specs.Calls.{IsEntry};
ghost use Rattle.histories.specs.declared.reader.BadLine.{BadLine as BadAt};
ghost use Rattle.histories.specs.Reading.{AreWords};
ghost use Rattle.histories.specs.MethodNumeral.{begins_otherwise};
ghost use Rattle.histories.specs.Stamped.{stamped_line, text_two, SpellsStamped, is_format_two, IsFormatTwo, HasFormatTwo, IsHistoryTwo, IsFirstBadTwo};

use crate::entries::entry_of;
use crate::reader::{BadLine, Meaning, read_values};
use crate::writer::{put_entry, put_last};
use byte_ends::{next_line, words_of};
use file_parts::Span;
use script_words::{ReadRefusal, is_word};
use std::alloc::{AllocError, Global};
use unix_calls::Entry;
use unix_names::NoMemory;

/// An entry of a history of format 2: with the place of its turn in the list of turns that were done, counted from 0, and the user of its process.
#[derive(Clone, Copy, Debug, PartialEq, Eq)]
pub struct Stamped {
    pub place: u64,
    pub uid: u32,
    pub entry: Entry,
}

/// The text of a history of format 2: the line `format 2`, a line for each entry, and the last line, `quiet` or `open`.
pub fn put_history_two(
    alloc: Global,
    entries: &[Stamped],
    is_quiet: bool,
) -> Result<Vec<u8>, NoMemory>
    requires { All (λ s. IsEntry s.entry) entries.now }
    ensures { IfOk result (λ bytes. bytes.items ≡ text_two entries.now is_quiet) }
{
    let mut text = String::new(alloc);
    text.push_str("format 2\n")?;
    for entry in entries {
        put_stamped(&mut text, entry)?;
    }
    put_last(&mut text, is_quiet)?;
    Ok(text.into_bytes())
}

// Puts the line of a stamped entry at the end of a text.
fn put_stamped(text: &mut String, stamped: &Stamped) -> Result<(), AllocError>
    ensures { OnOk result (string_bytes text.new ≡ string_bytes text.old ++ stamped_line stamped.now) }
{
    let place = stamped.place;
    let uid = stamped.uid;
    write!(text, "{place} {uid} ")?;
    put_entry(text, &stamped.entry)
}

/// The stamped entries of a part of a file, up to the end of its history. None exactly where the part's first line is not `format 2`. `Bad` comes exactly where the lines behind that are no history of any stamped entries, with the first line at which they stop being one.
///
/// The part lies in the bytes, and its first line is from 1 to 2^31. There are fewer than 2^31 bytes.
pub fn read_history_two(
    alloc: Global,
    bytes: &[u8],
    part: Span,
) -> Result<Option<Vec<Stamped>>, ReadRefusal<BadLine>>
    requires few { length bytes.now < 2 ^ 31 }
    requires order { part.from ≤ part.to }
    requires within { part.to ≤ length bytes.now }
    requires first { part.first_line ≤ 2 ^ 31 }
    ensures entries { let ls = lines (slice_range bytes.now part.from part.to) in
        IfOk result (λ o. IfSome o (λ v. IsHistoryTwo ls v.items)) }
    ensures other { let ls = lines (slice_range bytes.now part.from part.to) in
        IfOk result (λ o. IfNone o (¬ HasFormatTwo ls)) }
    ensures bad { let ls = lines (slice_range bytes.now part.from part.to) in
        (bad : BadAt) → result ≡ Err (ReadRefusal.Bad bad) → IsFirstBadTwo ls part.first_line bad.line }
{
    let text = &bytes[part.from..part.to];
    match behind_format_line(alloc, text)? {
        Some(next) => {
            let entries = read_values(alloc, text, next, part.first_line + 1)?;
            Ok(Some(entries))
        }
        None => Ok(None),
    }
}

// Where the second line begins, if the first one is `format 2`.
fn behind_format_line(alloc: Global, text: &[u8]) -> Result<Option<usize>, AllocError>
    ensures some { IfOk result (λ o. IfSome o (λ next. (next ≤ length text.now) × (0 < next) × ((line : List ℕ) × (lines text.now ≡ line ∷ lines (drop next text.now)) × IsFormatTwo line))) }
    ensures none { IfOk result (λ o. IfNone o (¬ HasFormatTwo (lines text.now))) }
{
    let Some((from, to, next)) = next_line(text, 0) else {
        return Ok(None);
    };
    let words = words_of(alloc, &text[from..to])?;
    if is_format_two(&words) {
        Ok(Some(next))
    } else {
        Ok(None)
    }
}

fn is_format_two(words: &[&[u8]]) -> bool
    ensures { result ≡ is_format_two (map (λ w. w.now) words.now) }
{
    match words {
        [word, number] => is_word(word, "format") && is_word(number, "2"),
        _ => false,
    }
}

impl Meaning for Stamped {
    ghost use Rattle.histories.specs.Stamped.{MeansStamped};

    ghost means = { MeansStamped };

    fn read(alloc: Global, _line: &[u8], words: &[&[u8]]) -> Result<Option<Stamped>, AllocError> {
        stamped_of(alloc, words)
    }
}

// The stamped entry that the words of a line spell, if they spell one.
fn stamped_of(alloc: Global, words: &[&[u8]]) -> Result<Option<Stamped>, AllocError>
    requires { AreWords (map (λ w. w.now) words.now) }
    ensures found { IfOk result (λ o. IfSome o (SpellsStamped (map (λ w. w.now) words.now))) }
    ensures none { IfOk result (λ o. IsNone o → (s : Stamped) → SpellsStamped (map (λ w. w.now) words.now) s → ⊥) }
{
    let [place, uid, rest @ ..] = words else {
        return Ok(None);
    };
    let Some(place) = numeral(place) else {
        return Ok(None);
    };
    let Some(uid) = small_numeral(uid) else {
        return Ok(None);
    };
    match entry_of(alloc, rest)? {
        Some(entry) => Ok(Some(Stamped { place, uid, entry })),
        None => Ok(None),
    }
}

// The number below 2^64 of which a word is written: decimal digits without leading zeros.
fn numeral(word: &[u8]) -> Option<u64>
    ensures some { IfSome result (λ n. (word.now ≡ decimal n) × (n < 2 ^ 64)) }
    ensures none { IfNone result ((n : ℕ) → n < 2 ^ 64 → word.now ≡ decimal n → ⊥) }
{
    if begins_otherwise(word) {
        return None;
    }
    match std::str::from_utf8(word) {
        Ok(text) => text.parse().ok(),
        Err(_) => None,
    }
}

// Whether a word begins with a plus, or with a zero and more.
fn begins_otherwise(word: &[u8]) -> bool
    ensures { result ≡ begins_otherwise word.now }
{
    match word {
        [] => false,
        [first, rest @ ..] => *first == b'+' || (*first == b'0' && !rest.is_empty()),
    }
}

// The number below 2^32 of which a word is written.
fn small_numeral(word: &[u8]) -> Option<u32>
    ensures some { IfSome result (λ n. (word.now ≡ decimal n) × (n < 2 ^ 32)) }
    ensures none { IfNone result ((n : ℕ) → n < 2 ^ 32 → word.now ≡ decimal n → ⊥) }
{
    let number = numeral(word)?;
    u32::try_from(number).ok()
}
