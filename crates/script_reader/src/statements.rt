// The statements of a script.
ghost use Rattle.std.specs.Prelude.{◌≡◌, map, List, ℕ};
ghost use Rattle.script_reader.specs.Statements as spec;

use crate::names::{Names, Numbers};
use crate::places::Place;
use script_words::{
    Kind, Verb, act_named, changes_in, ended, is_minus_digits, is_word, name, node, number, signal,
    signal_number, word_at,
};
use unix_calls::{Arg, Statement};
use unix_names::{Act, NodeId, SigSet};

/// A variable that is given a value.
#[tactic(auto, unfolding(crate::specs::Statements::own_variable))]
pub fn own_variable<'a>(variables: &Numbers<'a>, word: &'a [u8]) -> Result<usize, Kind>
    ensures { result ≡ spec.own_variable variables.now word.now }
{
    name(word)?;
    variables.number_of(word).ok_or(Kind::UnknownWord)
}

/// A script anywhere in the file.
#[tactic(auto, unfolding(crate::specs::Statements::script))]
pub fn script<'a>(scripts: &Numbers<'a>, word: &'a [u8]) -> Result<usize, Kind>
    ensures { result ≡ spec.script scripts.now word.now }
{
    name(word)?;
    scripts.number_of(word).ok_or(Kind::UnknownScript)
}

// A script earlier than the one in which the word stands.
#[tactic(auto, unfolding(crate::specs::Statements::earlier_script))]
fn earlier_script<'a>(names: &Names<'a>, place: &Place, word: &'a [u8]) -> Result<usize, Kind>
    ensures { result ≡ spec.earlier_script names.now place.now word.now }
{
    let n = script(&names.scripts, word)?;
    if n < place.scripts.saturating_sub(1) {
        Ok(n)
    } else {
        Err(Kind::LaterScript)
    }
}

#[tactic(auto, unfolding(crate::specs::Statements::variable))]
fn variable<'a>(variables: &Numbers<'a>, word: &'a [u8]) -> Result<Arg, Kind>
    ensures { result ≡ spec.variable variables.now word.now }
{
    match name(word) {
        Ok(()) => match variables.number_of(word) {
            Some(n) => Ok(Arg::Var(n)),
            None => Err(Kind::UnknownWord),
        },
        Err(_) => Err(Kind::UnknownWord),
    }
}

// A process other than 0 and 1.
#[tactic(auto, unfolding(crate::specs::Statements::group))]
fn group<'a>(variables: &Numbers<'a>, word: &'a [u8]) -> Result<Arg, Kind>
    ensures { result ≡ spec.group variables.now word.now }
{
    if is_word(word, "none") {
        Ok(Arg::Nobody)
    } else if is_word(word, "self") {
        Ok(Arg::Own)
    } else if is_word(word, "maker") {
        Ok(Arg::Maker)
    } else {
        variable(variables, word)
    }
}

#[tactic(auto, unfolding(crate::specs::Statements::process))]
fn process<'a>(variables: &Numbers<'a>, word: &'a [u8]) -> Result<Arg, Kind>
    ensures { result ≡ spec.process variables.now word.now }
{
    if is_word(word, "0") {
        Ok(Arg::Zero)
    } else if is_word(word, "1") {
        Ok(Arg::One)
    } else {
        group(variables, word)
    }
}

// A process, or a group behind a minus.
#[tactic(auto, unfolding(crate::specs::Statements::target))]
fn target<'a>(variables: &Numbers<'a>, word: &'a [u8]) -> Result<(bool, Arg), Kind>
    ensures { result ≡ spec.target variables.now word.now }
{
    match word {
        [] => Err(Kind::UnknownWord),
        [first, rest @ ..] => {
            if is_minus_digits(word) {
                Err(Kind::BadNumber)
            } else if *first == b'-' {
                Ok((true, group(variables, rest)?))
            } else {
                Ok((false, process(variables, word)?))
            }
        }
    }
}

// The group that `setpgid` asks for, which may be -1.
#[tactic(auto, unfolding(crate::specs::Statements::wanted_group))]
fn wanted_group<'a>(variables: &Numbers<'a>, word: &'a [u8]) -> Result<(bool, Arg), Kind>
    ensures { result ≡ spec.wanted_group variables.now word.now }
{
    if is_word(word, "-1") {
        Ok((true, Arg::One))
    } else {
        target(variables, word)
    }
}

// Which children `wait` asks for: whether any, whether there is a minus, and whom it names.
#[tactic(auto, unfolding(crate::specs::Statements::selector))]
fn selector<'a>(variables: &Numbers<'a>, word: &'a [u8]) -> Result<(bool, bool, Arg), Kind>
    ensures { result ≡ spec.selector variables.now word.now }
{
    if is_word(word, "any") {
        Ok((true, false, Arg::Nobody))
    } else {
        let (minus, arg) = target(variables, word)?;
        Ok((false, minus, arg))
    }
}

// Which changes of a child `wait` asks for too, from its third word on: stopped ones, continued ones.
#[tactic(auto, unfolding(crate::specs::Statements::changes))]
fn changes(words: &[&[u8]]) -> Result<(bool, bool), Kind>
    ensures { result ≡ spec.changes (map (λ w. w.now) words.now) }
{
    match words {
        [_, _, asked @ ..] => changes_in(asked).ok_or(Kind::UnknownWord),
        _ => Ok((false, false)),
    }
}

#[tactic(auto, unfolding(crate::specs::Statements::act))]
fn act(word: &[u8]) -> Result<Act, Kind>
    ensures { result ≡ spec.act word.now }
{
    act_named(word).ok_or(Kind::UnknownWord)
}

fn signals(words: &[&[u8]]) -> Result<SigSet, Kind>
    ensures { result ≡ spec.signals 0 (map (λ w. w.now) words.now) }
{
    let mut set = SigSet::empty();
    for word in words {
        set = set.with(signal(word)?);
    }
    Ok(set)
}

// Where a child begins, from the fourth word of a fork on.
#[tactic(auto, unfolding(crate::specs::Statements::site))]
fn site(nodes: u32, words: &[&[u8]]) -> Result<Option<NodeId>, Kind>
    ensures { result ≡ spec.site nodes (map (λ w. w.now) words.now) }
{
    if words.len() <= 3 {
        Ok(None)
    } else if is_word(word_at(words, 3), "at") {
        let n = node(nodes, word_at(words, 4))?;
        ended(words, 5, Some(NodeId(n)))
    } else {
        Err(Kind::UnknownWord)
    }
}

#[tactic(auto, unfolding(crate::specs::Statements::fork_statement))]
fn fork_statement<'a>(
    names: &Names<'a>,
    place: &Place,
    words: &[&'a [u8]],
) -> Result<Statement, Kind>
    ensures { result ≡ spec.fork_statement names.now place.now (map (λ w. w.now) words.now) }
{
    let var = own_variable(&names.variables, word_at(words, 1))?;
    let script = earlier_script(names, place, word_at(words, 2))?;
    let at = site(place.nodes, words)?;
    Ok(Statement::Fork { var, script, at })
}

#[tactic(auto, unfolding(crate::specs::Statements::wait_statement))]
fn wait_statement<'a>(
    variables: &Numbers<'a>,
    sleeps: bool,
    words: &[&'a [u8]],
) -> Result<Statement, Kind>
    ensures { result ≡ spec.wait_statement variables.now sleeps (map (λ w. w.now) words.now) }
{
    let (any, minus, arg) = selector(variables, word_at(words, 1))?;
    let (stopped, continued) = changes(words)?;
    Ok(Statement::Wait {
        sleeps,
        any,
        minus,
        arg,
        stopped,
        continued,
    })
}

#[tactic(auto, unfolding(crate::specs::Statements::kill_statement))]
fn kill_statement<'a>(variables: &Numbers<'a>, words: &[&'a [u8]]) -> Result<Statement, Kind>
    ensures { result ≡ spec.kill_statement variables.now (map (λ w. w.now) words.now) }
{
    let (minus, arg) = target(variables, word_at(words, 1))?;
    let sig = signal_number(word_at(words, 2))?;
    ended(words, 3, Statement::Kill { minus, arg, sig })
}

#[tactic(auto, unfolding(crate::specs::Statements::setpgid_statement))]
fn setpgid_statement<'a>(variables: &Numbers<'a>, words: &[&'a [u8]]) -> Result<Statement, Kind>
    ensures { result ≡ spec.setpgid_statement variables.now (map (λ w. w.now) words.now) }
{
    let pid = process(variables, word_at(words, 1))?;
    let (minus, pgid) = wanted_group(variables, word_at(words, 2))?;
    ended(words, 3, Statement::Setpgid { pid, minus, pgid })
}

#[tactic(auto, unfolding(crate::specs::Statements::action_statement))]
fn action_statement(words: &[&[u8]]) -> Result<Statement, Kind>
    ensures { result ≡ spec.action_statement (map (λ w. w.now) words.now) }
{
    let sig = signal_number(word_at(words, 1))?;
    let act = act(word_at(words, 2))?;
    ended(words, 3, Statement::Action { sig, act })
}

#[tactic(auto, unfolding(crate::specs::Statements::mask_statement))]
fn mask_statement(words: &[&[u8]]) -> Result<Statement, Kind>
    ensures { result ≡ spec.mask_statement (map (λ w. w.now) words.now) }
{
    match words {
        [] => Ok(Statement::Mask(SigSet::empty())),
        [_, rest @ ..] => Ok(Statement::Mask(signals(rest)?)),
    }
}

#[tactic(auto, unfolding(crate::specs::Statements::migrate_statement))]
fn migrate_statement(nodes: u32, words: &[&[u8]]) -> Result<Statement, Kind>
    ensures { result ≡ spec.migrate_statement nodes (map (λ w. w.now) words.now) }
{
    let n = node(nodes, word_at(words, 1))?;
    ended(words, 2, Statement::Migrate(NodeId(n)))
}

#[tactic(auto, unfolding(crate::specs::Statements::exec_statement))]
fn exec_statement<'a>(
    names: &Names<'a>,
    place: &Place,
    words: &[&'a [u8]],
) -> Result<Statement, Kind>
    ensures { result ≡ spec.exec_statement names.now place.now (map (λ w. w.now) words.now) }
{
    let n = earlier_script(names, place, word_at(words, 1))?;
    ended(words, 2, Statement::Exec(n))
}

#[tactic(auto, unfolding(crate::specs::Statements::exit_statement))]
fn exit_statement(words: &[&[u8]]) -> Result<Statement, Kind>
    ensures { result ≡ spec.exit_statement (map (λ w. w.now) words.now) }
{
    let n = number(word_at(words, 1))?;
    ended(words, 2, Statement::Exit(n))
}

#[tactic(auto, unfolding(crate::specs::Statements::getpgid_statement))]
fn getpgid_statement<'a>(variables: &Numbers<'a>, words: &[&'a [u8]]) -> Result<Statement, Kind>
    ensures { result ≡ spec.getpgid_statement variables.now (map (λ w. w.now) words.now) }
{
    let arg = process(variables, word_at(words, 1))?;
    ended(words, 2, Statement::Getpgid(arg))
}

#[tactic(auto, unfolding(crate::specs::Statements::getsid_statement))]
fn getsid_statement<'a>(variables: &Numbers<'a>, words: &[&'a [u8]]) -> Result<Statement, Kind>
    ensures { result ≡ spec.getsid_statement variables.now (map (λ w. w.now) words.now) }
{
    let arg = process(variables, word_at(words, 1))?;
    ended(words, 2, Statement::Getsid(arg))
}

/// The statement of a line that begins with a statement's word.
#[tactic(auto, unfolding(crate::specs::Statements::statement_of))]
pub fn statement_of<'a>(
    names: &Names<'a>,
    place: &Place,
    verb: Verb,
    words: &[&'a [u8]],
) -> Result<Statement, Kind>
    ensures { result ≡ spec.statement_of names.now place.now verb (map (λ w. w.now) words.now) }
{
    match verb {
        Verb::Getpid => ended(words, 1, Statement::Getpid),
        Verb::Getppid => ended(words, 1, Statement::Getppid),
        Verb::Setsid => ended(words, 1, Statement::Setsid),
        Verb::Pending => ended(words, 1, Statement::Pending),
        Verb::Getpgid => getpgid_statement(&names.variables, words),
        Verb::Getsid => getsid_statement(&names.variables, words),
        Verb::Fork => fork_statement(names, place, words),
        Verb::Exec => exec_statement(names, place, words),
        Verb::Exit => exit_statement(words),
        Verb::Wait => wait_statement(&names.variables, true, words),
        Verb::Poll => wait_statement(&names.variables, false, words),
        Verb::Kill => kill_statement(&names.variables, words),
        Verb::Setpgid => setpgid_statement(&names.variables, words),
        Verb::Action => action_statement(words),
        Verb::Mask => mask_statement(words),
        Verb::Migrate => migrate_statement(place.nodes, words),
    }
}
