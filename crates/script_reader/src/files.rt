// Whole world parts.
ghost use Rattle.std.specs.Prelude.{◌≡◌, ◌+◌, ◌-◌, ◌^◌, ◌<◌, ◌≤◌, [], ◌∷◌, ◌++◌, List, Ok, Err, map, length, slice_range, IfOk, OnOk, IsTrue};
ghost use Rattle.byte_ends.specs.Text.{lines as lines_in};
ghost use Rattle.unix_calls.specs.Work.{works, total_work};
ghost use Rattle.unix_calls.specs.declared.Script.{Script};
ghost use Rattle.script_words.specs.declared.faults.Fault.{Fault};
ghost use Rattle.script_reader.specs.Files as spec;
ghost use Rattle.script_reader.specs.MethodCuts.{cut_rows, cut_tells, cut_silent_kind};
ghost use Rattle.script_reader.specs.MethodReading.{Stands, HaveNodes};

use crate::bodies::Bodies;
use crate::cuts::{Cut, CutLine, cut_lines};
use crate::gather::gather;
use crate::lines::{place_after, read_line};
use crate::marks::Marks;
use crate::names::Names;
use crate::places::{FIRST_PLACE, Place};
use crate::starts::judged;
use file_parts::Span;
use script_words::{Kind, ReadRefusal, bad};
use std::alloc::{AllocError, Global};
use unix_calls::{Script, Work, World, fill_works};
use unix_names::{NoMemory, Seq};

/// The world that a world part means, or the least fault of it. Memory grows with the words and lines of the part.
///
/// # Errors
/// `Bad` with the least line that has a fault, counted from the number of the part's first line, and its first fault;
/// `NoMemory` where memory runs out.
pub fn read_file(alloc: Global, bytes: &[u8], part: Span) -> Result<World, ReadRefusal>
    requires short { length bytes.now < 2 ^ 31 }
    requires order { part.from ≤ part.to }
    requires within { part.to ≤ length bytes.now }
    requires first { 1 ≤ part.first_line }
    requires numbers { part.first_line ≤ 2 ^ 31 }
    ensures world { IfOk result (λ w. spec.read_part part.first_line (lines_in (slice_range bytes.now part.from part.to)) ≡ Ok w) }
    ensures bad { (fault : Fault) → result ≡ Err (ReadRefusal.Bad fault)
        → spec.read_part part.first_line (lines_in (slice_range bytes.now part.from part.to)) ≡ Err fault }
{
    read_part(alloc, &bytes[part.from..part.to], part.first_line)
}

fn read_part(alloc: Global, text: &[u8], first_line: u32) -> Result<World, ReadRefusal>
    requires short { length text.now < 2 ^ 31 }
    requires first { 1 ≤ first_line }
    requires numbers { first_line ≤ 2 ^ 31 }
    ensures world { IfOk result (λ w. spec.read_part first_line (lines_in text.now) ≡ Ok w) }
    ensures bad { (fault : Fault) → result ≡ Err (ReadRefusal.Bad fault) → spec.read_part first_line (lines_in text.now) ≡ Err fault }
{
    let cut = cut_lines(alloc, text)?;
    let names = gather(alloc, &cut)?;
    let read = read_lines(alloc, &names, &cut, first_line)?;
    let place = read.place;
    if !place.begun {
        let kind = silent_kind(&cut.lines);
        return Err(bad(first_line, kind));
    }
    let works = works_of(alloc, read.scripts.as_slice())?;
    let starts = judged(
        alloc,
        &works,
        read.marks.starts.as_slice(),
        read.marks.fault,
    )?;
    let vars = names.variables.len();
    match end_kind(&place) {
        Some(kind) => Err(bad(read.behind - 1, kind)),
        None => Ok(World {
            nodes: place.nodes,
            vars,
            scripts: read.scripts,
            starts,
        }),
    }
}

/// What the lines of a part say: their scripts, where the line behind them would stand and its number, and their starts
/// up to the first fault of a line.
#[derive(Drop)]
struct Reading {
    scripts: Seq<Script>,
    place: Place,
    marks: Marks,
    behind: u32,
}

// Reads each line once.
fn read_lines<'a>(
    alloc: Global,
    names: &Names<'a>,
    cut: &Cut<'a>,
    first_line: u32,
) -> Result<Reading, NoMemory>
    requires short { length cut.now.lines.items < 2 ^ 31 }
    requires numbers { first_line ≤ 2 ^ 31 }
    ensures scripts { IfOk result (λ x. x.scripts ≡ spec.scripts_of (cut_tells names.now spec.first_place (cut_rows cut.now.words.items 0 cut.now.lines.items))) }
    ensures place { IfOk result (λ x. x.place ≡ spec.place_behind spec.first_place (cut_tells names.now spec.first_place (cut_rows cut.now.words.items 0 cut.now.lines.items))) }
    ensures marks { IfOk result (λ x. Stands x.marks x.behind first_line (cut_tells names.now spec.first_place (cut_rows cut.now.words.items 0 cut.now.lines.items))) }
    ensures nodes { IfOk result (λ x. HaveNodes x.marks.starts) }
    ensures few { IfOk result (λ x. length x.marks.starts < 2 ^ 31) }
    ensures behind { IfOk result (λ x. x.behind ≡ first_line + length cut.now.lines.items) }
{
    let mut bodies = Bodies::new(alloc);
    let mut marks = Marks::new(alloc);
    let mut place = FIRST_PLACE;
    let mut number = first_line;
    let mut from = 0;
    for line in &cut.lines {
        let to = from + line.word_count as usize;
        let words = &cut.words[from..to];
        let read = read_line(names, &place, line.is_utf8, words);
        bodies.take_line(alloc, words, &read)?;
        marks.take_line(number, &read)?;
        place = place_after(place, words, read);
        number += 1;
        from = to;
    }
    let scripts = bodies.finish()?;
    Ok(Reading {
        scripts,
        place,
        marks,
        behind: number,
    })
}

// The work of each script.
fn works_of(alloc: Global, scripts: &[Script]) -> Result<Vec<Work>, AllocError>
    ensures { IfOk result (λ v. v.items ≡ works scripts.now) }
{
    let mut list = vec![in alloc; Work::NONE; scripts.len()]?;
    fill_works(&mut list, scripts);
    Ok(list)
}

// What is wrong with a part in which no line says anything.
fn silent_kind(lines: &[CutLine]) -> Kind
    ensures { result ≡ cut_silent_kind lines.now }
{
    match lines {
        [] => Kind::NoClusterLine,
        [first, ..] => {
            if first.is_utf8 {
                Kind::NoClusterLine
            } else {
                Kind::NotUtf8
            }
        }
    }
}

// What is wrong with a whole part behind its last line.
fn end_kind(place: &Place) -> Option<Kind>
    ensures { result ≡ spec.end_kind place.now }
{
    if place.is_open {
        Some(Kind::UnknownWord)
    } else if place.starts == 0 {
        Some(Kind::NoStart)
    } else {
        None
    }
}
