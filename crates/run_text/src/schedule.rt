// Schedules, read and written.
ghost use Rattle.std.specs.Prelude.{◌≡◌, ◌≤◌, ◌<◌, ◌^◌, ◌++◌, ◌∷◌, [], ◌+◌, All, IfOk, IfSome, OnOk, length, map, slice_range, Ok, Err};
ghost use Rattle.std.specs.String.{string_bytes};
ghost use Rattle.byte_ends.specs.Text.{lines, words as words_in};
ghost use Rattle.script_words.specs.declared.Fault.{Fault};
ghost use Rattle.run_text.specs.Schedule as spec;

use byte_ends::{next_line, take_words};
use file_parts::Span;
use script_words::{
    Fault, Kind, ReadRefusal, ended, is_skipped, is_utf8, is_word, node, number, word_at,
};
use std::alloc::{AllocError, Global};
use unix_calls::{MOST_TURNS, Turn};
use unix_names::NoMemory;

/// The turns of a part of a file, for a cluster of so many nodes, or the least fault of the part.
///
/// The part lies in the bytes, and its first line is from 1 to 2^31. There are fewer than 2^31 bytes.
pub fn read_schedule(
    alloc: Global,
    bytes: &[u8],
    part: Span,
    nodes: u32,
) -> Result<Vec<Turn>, ReadRefusal>
    requires few { length bytes.now < 2 ^ 31 }
    requires order { part.from ≤ part.to }
    requires within { part.to ≤ length bytes.now }
    requires first { part.first_line ≤ 2 ^ 31 }
    ensures turns { let ls = lines (slice_range bytes.now part.from part.to) in
        IfOk result (λ v. spec.schedule nodes part.first_line ls ≡ Ok v.items) }
    ensures fault { let ls = lines (slice_range bytes.now part.from part.to) in
        (fault : Fault) → result ≡ Err (ReadRefusal.Bad fault) → spec.schedule nodes part.first_line ls ≡ Err fault }
    ensures nodes { IfOk result (λ v. All (spec.HasNodes nodes) v.items) }
{
    let text = &bytes[part.from..part.to];
    let mut turns = Vec::new(alloc);
    let mut count = 0;
    let mut line = part.first_line;
    let mut at = 0;
    let mut words = Vec::new(alloc);
    while let Some((from, to, next)) = next_line(text, at) {
        take_words(&mut words, &text[from..to])?;
        match read_turn(nodes, count, &text[from..to], &words) {
            Err(kind) => return Err(ReadRefusal::Bad(Fault { line, kind })),
            Ok(None) => {}
            Ok(Some(turn)) => {
                turns.push(turn)?;
                count += turns_in(turn);
            }
        }
        line += 1;
        at = next;
    }
    Ok(turns)
}

// What a line of these words says behind so many turns.
#[tactic(auto, unfolding(crate::specs::Schedule::read_turn))]
fn read_turn(nodes: u32, before: u64, line: &[u8], words: &[&[u8]]) -> Result<Option<Turn>, Kind>
    requires words { map (λ w. w.now) words.now ≡ words_in line.now }
    requires before { before ≤ MOST_TURNS }
    ensures value { result ≡ spec.read_turn nodes before line.now }
    ensures few { IfOk result (λ o. IfSome o (λ t. spec.HasNodes nodes t × (before + spec.turns_in t ≤ MOST_TURNS))) }
{
    if !is_utf8(line) {
        return Err(Kind::NotUtf8);
    }
    if is_skipped(words) {
        return Ok(None);
    }
    counted(before, turn_of(nodes, words)?)
}

#[tactic(auto, unfolding(crate::specs::Schedule::counted))]
fn counted(before: u64, turn: Turn) -> Result<Option<Turn>, Kind>
    requires { before ≤ MOST_TURNS }
    ensures value { result ≡ spec.counted before turn }
    ensures few { IfOk result (λ o. IfSome o (λ t. (t ≡ turn) × (before + spec.turns_in t ≤ MOST_TURNS))) }
{
    if before + turns_in(turn) <= u64::from(MOST_TURNS) {
        Ok(Some(turn))
    } else {
        Err(Kind::TooManyTurns)
    }
}

/// How many turns a turn of a schedule stands for.
pub fn turns_in(turn: Turn) -> u64
    ensures count { result ≡ spec.turns_in turn }
    ensures small { result < 2 ^ 32 }
{
    match turn {
        Turn::Go(_) | Turn::Push(_, _) | Turn::Take(_, _) => 1,
        Turn::Auto(count) => u64::from(count),
    }
}

#[tactic(auto, unfolding(crate::specs::Schedule::turn_of))]
fn turn_of(nodes: u32, words: &[&[u8]]) -> Result<Turn, Kind>
    ensures value { result ≡ spec.turn_of nodes (map (λ w. w.now) words.now) }
    ensures nodes { IfOk result (spec.HasNodes nodes) }
{
    let verb = word_at(words, 0);
    if is_word(verb, "go") {
        let n = node(nodes, word_at(words, 1))?;
        ended(words, 2, Turn::Go(n))
    } else if is_word(verb, "push") {
        let n = node(nodes, word_at(words, 1))?;
        let to = node(nodes, word_at(words, 2))?;
        ended(words, 3, Turn::Push(n, to))
    } else if is_word(verb, "take") {
        let n = node(nodes, word_at(words, 1))?;
        let from = node(nodes, word_at(words, 2))?;
        ended(words, 3, Turn::Take(n, from))
    } else if is_word(verb, "auto") {
        let count = number(word_at(words, 1))?;
        ended(words, 2, Turn::Auto(count))
    } else {
        Err(Kind::UnknownWord)
    }
}

/// The text of a schedule: a line for each turn.
pub fn put_schedule(alloc: Global, turns: &[Turn]) -> Result<Vec<u8>, NoMemory>
    ensures { IfOk result (λ bytes. bytes.items ≡ spec.schedule_text turns.now) }
{
    let mut text = String::new(alloc);
    for turn in turns {
        put_turn(&mut text, *turn)?;
    }
    Ok(text.into_bytes())
}

fn put_turn(text: &mut String, turn: Turn) -> Result<(), AllocError>
    ensures { OnOk result (string_bytes text.new ≡ string_bytes text.old ++ (spec.turn_line turn ++ 10 ∷ [])) }
{
    match turn {
        Turn::Go(n) => writeln!(text, "go {n}"),
        Turn::Push(n, to) => writeln!(text, "push {n} {to}"),
        Turn::Take(n, from) => writeln!(text, "take {n} {from}"),
        Turn::Auto(count) => writeln!(text, "auto {count}"),
    }
}
