// Where the parts of a file stand.
ghost use Rattle.std.specs.Prelude.{◌≡◌, ◌+◌, ◌<◌, ◌≤◌, ◌^◌, length, take};
ghost use Rattle.std.specs.List.{list_all};
ghost use Rattle.std.specs.Str.{bytes_eq};
ghost use Rattle.byte_ends.specs.Text.{lines, words, is_blank};
ghost use Rattle.file_parts.specs.Parts.{IsPart, IsPartOf, is_only, before, behind, front_lines, world_lines, schedule_lines, history_lines};

use byte_ends::next_line;

const SCHEDULE: &str = "schedule";

const HISTORY: &str = "history";

/// A part of a file: the bytes from `from` up to `to`, and the number of its first line, counted from 1.
#[derive(Clone, Copy, Debug, PartialEq, Eq)]
pub struct Span {
    pub from: usize,
    pub to: usize,
    pub first_line: u32,
}

/// The parts of a file. The lines that divide them belong to none.
#[derive(Clone, Copy, Debug, PartialEq, Eq)]
pub struct Parts {
    pub world: Span,
    pub schedule: Option<Span>,
    pub history: Option<Span>,
}

/// The parts of a file of fewer than 2^31 bytes.
///
/// The history is what stands behind the first line whose only word is `history`. In what stands before that line the schedule
/// is what stands behind the first line whose only word is `schedule`, and the world is the rest. It takes no memory.
pub fn split(bytes: &[u8]) -> Parts
    requires { length bytes.now < 2 ^ 31 }
    ensures world { IsPart bytes.now (world_lines (lines bytes.now)) 1 result.world }
    ensures schedule { IsPartOf bytes.now (schedule_lines (lines bytes.now)) (2 + length (world_lines (lines bytes.now))) result.schedule }
    ensures history { IsPartOf bytes.now (history_lines (lines bytes.now)) (2 + length (front_lines (lines bytes.now))) result.history }
{
    let (front, history) = divided(bytes, HISTORY);
    let (world, schedule) = divided(&bytes[..front], SCHEDULE);
    let world = Span {
        from: 0,
        to: world,
        first_line: 1,
    };
    Parts {
        world,
        schedule,
        history,
    }
}

// How many bytes stand before the first line whose only word is a given one, and the part behind that line.
fn divided(text: &[u8], word: &str) -> (usize, Option<Span>)
    requires { length text.now < 2 ^ 31 }
    ensures within { result.0 ≤ length text.now }
    ensures front { lines (take result.0 text.now) ≡ before (is_only word.now) (lines text.now) }
    ensures rest { IsPartOf text.now (behind (is_only word.now) (lines text.now)) (2 + length (before (is_only word.now) (lines text.now))) result.1 }
{
    let mut at = 0;
    let mut count = 0;
    while let Some((from, to, next)) = next_line(text, at) {
        if is_only(&text[from..to], word) {
            let rest = Span {
                from: next,
                to: text.len(),
                first_line: count + 2,
            };
            return (at, Some(rest));
        }
        at = next;
        count += 1;
    }
    (text.len(), None)
}

// Whether a line has one word, and it is a given one; a line that is shorter than the word has not.
#[tactic(auto, using(crate::proofs::Dividing::short_is_not))]
fn is_only(line: &[u8], word: &str) -> bool
    ensures { result ≡ is_only word.now line.now }
{
    word.len() <= line.len() && word_count(line) == 1 && has_all(line, word)
}

fn is_blank(b: u8) -> bool
    ensures { result ≡ is_blank b }
{
    b == b' ' || b == b'\t'
}

fn word_count(line: &[u8]) -> usize
    ensures { result ≡ length (words line.now) }
{
    line.split(|b| is_blank(*b))
        .filter(|word| !word.is_empty())
        .count()
}

// Whether each word of a line is a given one.
fn has_all(line: &[u8], text: &str) -> bool
    ensures { result ≡ list_all (λ word. bytes_eq word text.now) (words line.now) }
{
    line.split(|b| is_blank(*b))
        .filter(|word| !word.is_empty())
        .all(|word| word == text.as_bytes())
}
