// The lines of a part, cut into their words once.
ghost use Rattle.std.specs.Prelude.{◌≡◌, ◌<◌, ◌≤◌, ◌^◌, map, length, IfOk};
ghost use Rattle.std.specs.List.{sum_by};
ghost use Rattle.byte_ends.specs.Text.{lines as lines_in};
ghost use Rattle.script_reader.specs.MethodCuts.{cut_row, cut_rows};

use byte_ends::{next_line, take_words};
use script_words::is_utf8;
use std::alloc::Global;
use unix_names::NoMemory;

/// What is kept of a line besides its words: how many these are, and whether it is UTF-8.
#[derive(Clone, Copy, Debug, PartialEq, Eq)]
pub struct CutLine {
    pub word_count: u32,
    pub is_utf8: bool,
}

/// The words of all lines of a text one after the other, and its lines.
#[derive(Drop)]
pub struct Cut<'a> {
    pub words: Vec<&'a [u8]>,
    pub lines: Vec<CutLine>,
    ghost shared: { sum_by (λ line. line.word_count) lines.items ≡ length words.items },
}

/// Cuts the lines of a text, each once.
pub fn cut_lines<'a>(alloc: Global, text: &'a [u8]) -> Result<Cut<'a>, NoMemory>
    requires short { length text.now < 2 ^ 31 }
    ensures lines { IfOk result (λ cut. cut_rows cut.words.items 0 cut.lines.items ≡ map cut_row (lines_in text.now)) }
    ensures few { IfOk result (λ cut. length cut.lines.items ≤ length text.now) }
{
    let mut words = Vec::new(alloc);
    let mut lines = Vec::new(alloc);
    let mut line_words = Vec::new(alloc);
    let mut at = 0;
    while let Some((from, to, next)) = next_line(text, at) {
        let line = &text[from..to];
        take_words(&mut line_words, line)?;
        words.extend_from_slice(&line_words)?;
        lines.push(CutLine {
            word_count: line_words.len() as u32,
            is_utf8: is_utf8(line),
        })?;
        at = next;
    }
    Ok(Cut { words, lines })
}
