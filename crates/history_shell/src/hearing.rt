// What is heard of an input's history: that it is legal, or what is wrong with it.
ghost use Rattle.std.specs.Prelude.{◌≡◌, ◌≤◌, ◌++◌, IfOk, Err, All, codes, length};
ghost use Rattle.given_files.specs.Input.{Means, history_first};
ghost use Rattle.history_shell.specs.MethodHearing.{history_read, IsHeard, IsHeardOf};
ghost use Rattle.history_shell.specs.Hearing.{plain, stamped, HasHistory, HasBadLine};
ghost use Rattle.audit_core.specs.Told.{judged_text, judged_two_text};
ghost use Rattle.audit_core.specs.Stamped.{entries_of};
ghost use Rattle.histories.specs.Told.{bad_line_text};
ghost use Rattle.histories.specs.declared.BadLine.{BadLine as BadAt};
ghost use Rattle.byte_ends.specs.Text.{lines};
ghost use Rattle.file_parts.specs.Parts.{IsPartOf, history_lines};
ghost use Rattle.unix_calls.specs.Calls.{EntryHasNames};
ghost use Rattle.unix_calls.specs.Valid.{IsValid};
ghost use Rattle.byte_ends.specs.declared.limits.TheConstants.{LONGEST_INPUT};

use audit_core::{Judged, JudgedTwo, audit, audit_two};
use command_ends::{Answer, Status};
use file_parts::Span;
use given_files::{Given, fault_answer, read_given};
use histories::{BadLine, Stamped, read_history, read_history_two};
use script_words::ReadRefusal;
use std::alloc::{AllocError, Global};
use unix_calls::Entry;
use unix_names::NoMemory;

/// What is heard of an input.
#[derive(Debug, Drop)]
pub enum Heard {
    /// Its history is legal, and has these entries.
    Legal(Given, Vec<Entry>),
    /// It has no legal history; this says why.
    Refused(Answer),
}

/// The entries of a history part, alone or with their stamps.
#[derive(Debug, Drop)]
enum Part {
    Plain(Vec<Entry>),
    Stamped(Vec<Stamped>),
}

/// What is heard of an input: the least fault of its world and its schedule, the first bad line of its history, the first entry that breaks a rule, or that the history is legal.
pub fn hear(alloc: Global, input: &[u8]) -> Result<Heard, NoMemory>
    requires { length input.now ≤ LONGEST_INPUT }
    ensures { IfOk result (IsHeard input.now) }
{
    match read_given(alloc, input) {
        Err(ReadRefusal::NoMemory) => Err(NoMemory),
        Err(ReadRefusal::Bad(fault)) => Ok(Heard::Refused(fault_answer(alloc, &fault)?)),
        Ok((given, part)) => heard_history(alloc, input, part, given),
    }
}

// What is heard of the history of an input that has this meaning, where its history part stands there.
fn heard_history(
    alloc: Global,
    input: &[u8],
    part: Option<Span>,
    given: Given,
) -> Result<Heard, NoMemory>
    requires short { length input.now ≤ LONGEST_INPUT }
    requires part { IsPartOf input.now (history_lines (lines input.now)) (history_first input.now) part }
    requires means { Means input.now given }
    ensures { IfOk result (IsHeard input.now) }
{
    match history_given(alloc, input, part) {
        Err(ReadRefusal::NoMemory) => Err(NoMemory),
        Err(ReadRefusal::Bad(bad)) => {
            let text = bad_text(alloc, bad)?;
            Ok(illegal(text))
        }
        Ok(Part::Plain(entries)) => judged(alloc, given, entries),
        Ok(Part::Stamped(entries)) => judged_two(alloc, given, &entries),
    }
}

// A history part's entries; without one there are none.
#[tactic(auto, using(given_files::proofs::LineNumbers::history_fits))]
fn history_given(
    alloc: Global,
    input: &[u8],
    part: Option<Span>,
) -> Result<Part, ReadRefusal<BadLine>>
    requires short { length input.now ≤ LONGEST_INPUT }
    requires part { IsPartOf input.now (history_lines (lines input.now)) (history_first input.now) part }
    ensures entries { IfOk result (λ p. HasHistory (history_lines (lines input.now)) (history_read p)) }
    ensures bad { (bad : BadAt) → result ≡ Err (ReadRefusal.Bad bad) → HasBadLine (history_lines (lines input.now)) (history_first input.now) bad.line }
{
    let Some(part) = part else {
        return Ok(Part::Plain(Vec::new(alloc)));
    };
    match read_history_two(alloc, input, part)? {
        Some(entries) => Ok(Part::Stamped(entries)),
        None => Ok(Part::Plain(read_history(alloc, input, part)?)),
    }
}

// What is heard of entries alone.
fn judged(alloc: Global, given: Given, entries: Vec<Entry>) -> Result<Heard, NoMemory>
    requires valid { IsValid given.world }
    requires names { All EntryHasNames entries.items }
    ensures { IfOk result (IsHeardOf given (plain entries.items)) }
{
    match audit(alloc, &given.world, &entries)? {
        Judged::Legal => Ok(Heard::Legal(given, entries)),
        judged => {
            let text = judged_text(alloc, judged)?;
            Ok(illegal(text))
        }
    }
}

// What is heard of stamped entries.
fn judged_two(alloc: Global, given: Given, entries: &[Stamped]) -> Result<Heard, NoMemory>
    requires valid { IsValid given.world }
    requires names { All (λ s. EntryHasNames s.entry) entries.now }
    ensures { IfOk result (IsHeardOf given (stamped entries.now)) }
{
    match audit_two(alloc, &given.world, entries)? {
        JudgedTwo::Legal => {
            let entries = entries_of(alloc, entries)?;
            Ok(Heard::Legal(given, entries))
        }
        judged => {
            let text = judged_two_text(alloc, judged)?;
            Ok(illegal(text))
        }
    }
}

// The entries without their stamps.
fn entries_of(alloc: Global, entries: &[Stamped]) -> Result<Vec<Entry>, AllocError>
    ensures { IfOk result (λ v. v.items ≡ entries_of entries.now) }
{
    let mut bare = Vec::new(alloc);
    for stamped in entries {
        bare.push(stamped.entry)?;
    }
    Ok(bare)
}

fn illegal(text: Vec<u8>) -> Heard
    ensures { result ≡ Heard.Refused (record { status = Status.Illegal; text = text }) }
{
    Heard::Refused(Answer {
        status: Status::Illegal,
        text,
    })
}

fn judged_text(alloc: Global, judged: Judged) -> Result<Vec<u8>, AllocError>
    ensures { IfOk result (λ text. text.items ≡ judged_text judged ++ codes "\n") }
{
    let mut text = String::new(alloc);
    writeln!(text, "{judged}")?;
    Ok(text.into_bytes())
}

fn judged_two_text(alloc: Global, judged: JudgedTwo) -> Result<Vec<u8>, AllocError>
    ensures { IfOk result (λ text. text.items ≡ judged_two_text judged ++ codes "\n") }
{
    let mut text = String::new(alloc);
    writeln!(text, "{judged}")?;
    Ok(text.into_bytes())
}

fn bad_text(alloc: Global, bad: BadLine) -> Result<Vec<u8>, AllocError>
    ensures { IfOk result (λ text. text.items ≡ bad_line_text bad.line ++ codes "\n") }
{
    let mut text = String::new(alloc);
    writeln!(text, "{bad}")?;
    Ok(text.into_bytes())
}
