// What a line says where it stands.
ghost use Rattle.std.specs.Prelude.{◌≡◌, ◌<◌, ◌≤◌, ◌^◌, map, codes, IfOk};
ghost use Rattle.script_reader.specs.Lines as spec;
ghost use Rattle.script_reader.specs.MethodCuts.{read_cut};

use crate::names::{Names, Numbers};
use crate::places::Place;
use crate::statements::{script, statement_of};
use script_words::{
    Kind, Verb, ended, is_skipped, is_word, name, node, number, verb_named, word_at,
};
use unix_calls::{MOST_NODES, MOST_SCRIPTS, MOST_STARTS, MOST_STATEMENTS, Statement};

/// What a line begins with.
#[derive(Clone, Copy, Debug, PartialEq, Eq)]
pub enum Head {
    Script,
    End,
    Start,
    Says(Verb),
    Unknown,
}

/// A start as its line gives it.
#[derive(Clone, Copy, Debug, PartialEq, Eq)]
pub struct StartLine {
    pub node: u32,
    pub script: usize,
    pub var: usize,
    pub uid: u32,
    pub joined: Option<usize>,
}

/// What a line says.
#[derive(Clone, Copy, Debug, PartialEq, Eq)]
pub enum Item {
    Nothing,
    Nodes(u32),
    ScriptBegins,
    ScriptEnds,
    Says(Statement),
    Starts(StartLine),
}

#[tactic(auto, unfolding(crate::specs::Lines::head_of))]
fn head_of(word: &[u8]) -> Head
    ensures { result ≡ spec.head_of word.now }
{
    if is_word(word, "script") {
        Head::Script
    } else if is_word(word, "end") {
        Head::End
    } else if is_word(word, "start") {
        Head::Start
    } else {
        match verb_named(word) {
            Some(verb) => Head::Says(verb),
            None => Head::Unknown,
        }
    }
}

// Whether a word has this number.
#[tactic(auto, unfolding(crate::specs::Lines::is_numbered))]
fn is_numbered<'a>(numbers: &Numbers<'a>, word: &'a [u8], at: usize) -> bool
    ensures { result ≡ spec.is_numbered numbers.now word.now at }
{
    match numbers.number_of(word) {
        Some(n) => n == at,
        None => false,
    }
}

#[tactic(auto, unfolding(crate::specs::Lines::cluster_line))]
fn cluster_line(words: &[&[u8]]) -> Result<Item, Kind>
    ensures { result ≡ spec.cluster_line (map (λ w. w.now) words.now) }
{
    if !is_word(word_at(words, 0), "cluster") {
        return Err(Kind::NoClusterLine);
    }
    let n = number(word_at(words, 1))?;
    if n > 0 && n <= MOST_NODES {
        ended(words, 2, ())?;
        Ok(Item::Nodes(n))
    } else {
        Err(Kind::TooManyNodes)
    }
}

#[tactic(auto, unfolding(crate::specs::Lines::script_line))]
fn script_line<'a>(names: &Names<'a>, place: &Place, words: &[&'a [u8]]) -> Result<Item, Kind>
    ensures { result ≡ spec.script_line names.now place.now (map (λ w. w.now) words.now) }
{
    if place.scripts == MOST_SCRIPTS {
        return Err(Kind::TooManyScripts);
    }
    if place.is_open {
        return Err(Kind::UnknownWord);
    }
    let word = word_at(words, 1);
    name(word)?;
    if is_numbered(&names.scripts, word, place.scripts) {
        ended(words, 2, ())?;
        Ok(Item::ScriptBegins)
    } else {
        Err(Kind::DoubleName)
    }
}

#[tactic(auto, unfolding(crate::specs::Lines::end_line))]
fn end_line(place: &Place, words: &[&[u8]]) -> Result<Item, Kind>
    ensures { result ≡ spec.end_line place.now (map (λ w. w.now) words.now) }
{
    if place.is_open {
        ended(words, 1, ())?;
        Ok(Item::ScriptEnds)
    } else {
        Err(Kind::UnknownWord)
    }
}

#[tactic(auto, unfolding(crate::specs::Lines::statement_line))]
fn statement_line<'a>(
    names: &Names<'a>,
    place: &Place,
    verb: Verb,
    words: &[&'a [u8]],
) -> Result<Item, Kind>
    ensures { result ≡ spec.statement_line names.now place.now verb (map (λ w. w.now) words.now) }
{
    if !place.is_open {
        return Err(Kind::UnknownWord);
    }
    if place.statements == MOST_STATEMENTS {
        return Err(Kind::TooManyStatements);
    }
    Ok(Item::Says(statement_of(names, place, verb, words)?))
}

// The variable of a start, which no earlier start has.
#[tactic(auto, unfolding(crate::specs::Lines::start_variable))]
fn start_variable<'a>(names: &Names<'a>, place: &Place, word: &'a [u8]) -> Result<usize, Kind>
    ensures { result ≡ spec.start_variable names.now place.now word.now }
{
    name(word)?;
    if is_numbered(&names.starts, word, place.starts) {
        names.variables.number_of(word).ok_or(Kind::UnknownWord)
    } else {
        Err(Kind::DoubleName)
    }
}

// The user of a start, and how many words the line has so far.
#[tactic(auto, unfolding(crate::specs::Lines::user))]
fn user(words: &[&[u8]]) -> Result<(u32, usize), Kind>
    ensures value { result ≡ spec.user (map (λ w. w.now) words.now) }
    ensures short { IfOk result (λ x. x.1 < 100) }
{
    if is_word(word_at(words, 4), "uid") {
        Ok((number(word_at(words, 5))?, 6))
    } else {
        Ok((0, 4))
    }
}

#[tactic(auto, unfolding(crate::specs::Lines::earlier_start))]
fn earlier_start<'a>(names: &Names<'a>, place: &Place, word: &'a [u8]) -> Result<usize, Kind>
    ensures { result ≡ spec.earlier_start names.now place.now word.now }
{
    name(word)?;
    let n = names.starts.number_of(word).ok_or(Kind::UnknownWord)?;
    if n < place.starts {
        Ok(n)
    } else {
        Err(Kind::UnknownWord)
    }
}

// The start that a start joins, behind so many words.
#[tactic(auto, unfolding(crate::specs::Lines::joined))]
fn joined<'a>(
    names: &Names<'a>,
    place: &Place,
    count: usize,
    words: &[&'a [u8]],
) -> Result<Option<usize>, Kind>
    requires { count < 100 }
    ensures { result ≡ spec.joined names.now place.now count (map (λ w. w.now) words.now) }
{
    if words.len() <= count {
        Ok(None)
    } else if is_word(word_at(words, count), "with") {
        let n = earlier_start(names, place, word_at(words, count + 1))?;
        ended(words, count + 2, Some(n))
    } else {
        Err(Kind::UnknownWord)
    }
}

#[tactic(auto, unfolding(crate::specs::Lines::start_words))]
fn start_words<'a>(names: &Names<'a>, place: &Place, words: &[&'a [u8]]) -> Result<Item, Kind>
    ensures { result ≡ spec.start_words names.now place.now (map (λ w. w.now) words.now) }
{
    let node = node(place.nodes, word_at(words, 1))?;
    let script = script(&names.scripts, word_at(words, 2))?;
    let var = start_variable(names, place, word_at(words, 3))?;
    let (uid, count) = user(words)?;
    let joined = joined(names, place, count, words)?;
    Ok(Item::Starts(StartLine {
        node,
        script,
        var,
        uid,
        joined,
    }))
}

#[tactic(auto, unfolding(crate::specs::Lines::start_line))]
fn start_line<'a>(names: &Names<'a>, place: &Place, words: &[&'a [u8]]) -> Result<Item, Kind>
    ensures { result ≡ spec.start_line names.now place.now (map (λ w. w.now) words.now) }
{
    if place.starts == MOST_STARTS {
        return Err(Kind::TooManyStarts);
    }
    if place.is_open {
        return Err(Kind::UnknownWord);
    }
    start_words(names, place, words)
}

#[tactic(auto, unfolding(crate::specs::Lines::later_line))]
fn later_line<'a>(
    names: &Names<'a>,
    place: &Place,
    head: Head,
    words: &[&'a [u8]],
) -> Result<Item, Kind>
    ensures { result ≡ spec.later_line names.now place.now head (map (λ w. w.now) words.now) }
{
    match head {
        Head::Script => script_line(names, place, words),
        Head::End => end_line(place, words),
        Head::Start => start_line(names, place, words),
        Head::Says(verb) => statement_line(names, place, verb, words),
        Head::Unknown => Err(Kind::UnknownWord),
    }
}

#[tactic(auto, unfolding(crate::specs::Lines::read_row))]
fn read_row<'a>(names: &Names<'a>, place: &Place, words: &[&'a [u8]]) -> Result<Item, Kind>
    ensures { result ≡ spec.read_row names.now place.now (map (λ w. w.now) words.now) }
{
    if is_skipped(words) {
        return Ok(Item::Nothing);
    }
    if place.begun {
        later_line(names, place, head_of(word_at(words, 0)), words)
    } else {
        cluster_line(words)
    }
}

/// What a line says where it stands, given its words and whether it is UTF-8, or its first fault.
pub fn read_line<'a>(
    names: &Names<'a>,
    place: &Place,
    is_utf8: bool,
    words: &[&'a [u8]],
) -> Result<Item, Kind>
    ensures { result ≡ read_cut names.now place.now (map (λ w. w.now) words.now, is_utf8) }
{
    if is_utf8 {
        read_row(names, place, words)
    } else {
        Err(Kind::NotUtf8)
    }
}

fn nodes_after(nodes: u32, read: Result<Item, Kind>) -> u32
    ensures { result ≡ spec.nodes_after nodes read }
{
    match read {
        Ok(Item::Nodes(n)) => n,
        _ => nodes,
    }
}

/// Where the line behind this one stands.
#[tactic(auto, unfolding(crate::specs::Lines::place_after))]
pub fn place_after(place: Place, words: &[&[u8]], read: Result<Item, Kind>) -> Place
    requires scripts { place.scripts < 2 ^ 32 }
    requires statements { place.statements < 2 ^ 32 }
    requires starts { place.starts < 2 ^ 32 }
    ensures { result ≡ spec.place_after place (map (λ w. w.now) words.now) read }
{
    if is_skipped(words) {
        return place;
    }
    let nodes = nodes_after(place.nodes, read);
    placed_after(place, nodes, head_of(word_at(words, 0)))
}

fn placed_after(place: Place, nodes: u32, head: Head) -> Place
    requires scripts { place.scripts < 2 ^ 32 }
    requires statements { place.statements < 2 ^ 32 }
    requires starts { place.starts < 2 ^ 32 }
    ensures { result ≡ spec.placed_after place nodes head }
{
    let mut next = Place {
        begun: true,
        nodes,
        ..place
    };
    match head {
        Head::Script => {
            next.is_open = true;
            next.scripts += 1;
            next.statements = 0;
        }
        Head::End => next.is_open = false,
        Head::Start => next.starts += 1,
        Head::Says(_) => {
            if place.is_open {
                next.statements += 1;
            }
        }
        Head::Unknown => {}
    }
    next
}
