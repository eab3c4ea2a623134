// Reading a history.
ghost use Rattle.std.specs.Prelude.{◌≡◌, ◌≤◌, ◌<◌, ◌^◌, ◌+◌, length, drop, slice_range, IfOk, OnOk, Err};
ghost use Rattle.byte_ends.specs.Text.{lines};
ghost use Rattle.histories.specs.declared.reader.BadLine.{BadLine as BadAt};
ghost use Rattle.histories.specs.Reading.{IsHistory, IsFirstBad, IsHistoryOf, IsFirstBadOf, IsEndBad, Ends};

use crate::entries::entry_of;
use crate::kinds::{is_last, is_only};
use byte_ends::{next_line, words_of};
use file_parts::Span;
use script_words::{ReadRefusal, is_skipped};
use std::alloc::{AllocError, Global};
use std::fmt;
use unix_calls::Entry;

/// The first line of a part at which it is no history, counted from 1 from the file's first line.
#[derive(Clone, Copy, Debug, PartialEq, Eq)]
pub struct BadLine {
    pub line: u32,
}

impl fmt::Display for BadLine {
    ghost use Rattle.std.specs.Prelude.{Some};
    ghost use Rattle.histories.specs.Told.{bad_line_text};

    ghost output = { λ bad. Some (bad_line_text bad.line) };

    fn fmt<W: fmt::Write>(&self, f: &mut fmt::Formatter<W>) -> fmt::Result {
        let line = self.line;
        write!(f, "bad text at line {line}")
    }
}

/// The entries of a part of a file, up to the end of its history. `Bad` comes exactly where the part is no history of any entries, with the first line at which it stops being one.
///
/// The part lies in the bytes, and its first line is from 1 to 2^31. There are fewer than 2^31 bytes.
pub fn read_history(
    alloc: Global,
    bytes: &[u8],
    part: Span,
) -> Result<Vec<Entry>, ReadRefusal<BadLine>>
    requires few { length bytes.now < 2 ^ 31 }
    requires order { part.from ≤ part.to }
    requires within { part.to ≤ length bytes.now }
    requires first { part.first_line ≤ 2 ^ 31 }
    ensures entries { let ls = lines (slice_range bytes.now part.from part.to) in
        IfOk result (λ v. IsHistory ls v.items) }
    ensures bad { let ls = lines (slice_range bytes.now part.from part.to) in
        (bad : BadAt) → result ≡ Err (ReadRefusal.Bad bad) → IsFirstBad ls part.first_line bad.line }
{
    read_values(alloc, &bytes[part.from..part.to], 0, part.first_line)
}

/// What a line of a history can mean.
pub trait Meaning: Sized + Drop {
    ghost use Rattle.std.specs.Prelude.{◌≡◌, ℕ, List, IfOk, IfSome, IsNone, map};
    ghost use Rattle.byte_ends.specs.Text.{words as words_in};

    ghost means: { List ℕ → Self → Type 0 };

    /// The value that a line of these words means, if it means one.
    fn read(alloc: Global, line: &[u8], words: &[&[u8]]) -> Result<Option<Self>, AllocError>
        requires { map (λ w. w.now) words.now ≡ words_in line.now }
        ensures found { IfOk result (λ o. IfSome o (means line.now)) }
        ensures none { IfOk result (λ o. IsNone o → (x : Self) → means line.now x → ⊥) };
}

impl Meaning for Entry {
    ghost use Rattle.histories.specs.Reading.{Means};

    ghost means = { Means };

    fn read(alloc: Global, _line: &[u8], words: &[&[u8]]) -> Result<Option<Entry>, AllocError> {
        entry_of(alloc, words)
    }
}

/// The values that the lines of a text mean from a place on, where the line there has this number, up to the end of the history; or the first bad line.
pub fn read_values<M: Meaning>(
    alloc: Global,
    text: &[u8],
    from: usize,
    first: u32,
) -> Result<Vec<M>, ReadRefusal<BadLine>>
    requires few { length text.now < 2 ^ 31 }
    requires within { from ≤ length text.now }
    requires first { first ≤ 2 ^ 31 + from }
    ensures values { IfOk result (λ v. IsHistoryOf M.means (lines (drop from text.now)) v.items) }
    ensures bad { (bad : BadAt) → result ≡ Err (ReadRefusal.Bad bad) → IsFirstBadOf M.means (lines (drop from text.now)) first bad.line }
{
    let mut values = Vec::new(alloc);
    let mut at = from;
    let mut number = first;
    while let Some((from, to, next)) = next_line(text, at) {
        let line = &text[from..to];
        let words = words_of(alloc, line)?;
        if !is_skipped(&words) {
            if is_only(&words, "schedule") {
                return Ok(values);
            }
            if is_last(&words) {
                ends(alloc, text, next, number + 1)?;
                return Ok(values);
            }
            match M::read(alloc, line, &words) {
                Ok(Some(value)) => {
                    if values.push(value).is_err() {
                        return Err(ReadRefusal::NoMemory);
                    }
                }
                Ok(None) => return Err(ReadRefusal::Bad(BadLine { line: number })),
                Err(_) => return Err(ReadRefusal::NoMemory),
            }
        }
        at = next;
        number += 1;
    }
    Ok(values)
}

// Passes where the lines from a place on say nothing, up to the end or to a schedule.
fn ends(alloc: Global, text: &[u8], from: usize, first: u32) -> Result<(), ReadRefusal<BadLine>>
    requires few { length text.now < 2 ^ 31 }
    requires within { from ≤ length text.now }
    requires first { first ≤ 2 ^ 31 + from }
    ensures good { OnOk result (Ends (lines (drop from text.now))) }
    ensures bad { (bad : BadAt) → result ≡ Err (ReadRefusal.Bad bad) → IsEndBad (lines (drop from text.now)) first bad.line }
{
    let mut at = from;
    let mut number = first;
    while let Some((from, to, next)) = next_line(text, at) {
        let words = words_of(alloc, &text[from..to])?;
        if !is_skipped(&words) {
            if is_only(&words, "schedule") {
                return Ok(());
            }
            return Err(ReadRefusal::Bad(BadLine { line: number }));
        }
        at = next;
        number += 1;
    }
    Ok(())
}
