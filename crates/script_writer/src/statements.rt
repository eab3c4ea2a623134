// Statements as lines of a file.
ghost use Rattle.std.specs.Prelude.{◌≡◌, ◌++◌, ◌∷◌, OnOk};
ghost use Rattle.std.specs.String.{string_bytes};
ghost use Rattle.script_words.specs.Table.{verb_word as word_of};
ghost use Rattle.script_words.specs.Writing.{spaced};
ghost use Rattle.script_writer.specs.Written.{spelled, arg_word, target_word, selector_word, site_words, statement_words};

use script_words::{Verb, act_word, put_changes, put_members, put_signal, put_word, verb_word};
use std::alloc::AllocError;
use unix_calls::{Arg, Statement};
use unix_names::NodeId;

/// Puts the words of a statement at the end of a text.
pub(crate) fn put_statement(text: &mut String, statement: &Statement) -> Result<(), AllocError>
    ensures { OnOk result (string_bytes text.new ≡ string_bytes text.old ++ spelled (statement_words statement.now)) }
{
    match *statement {
        Statement::Getpid => text.push_str(verb_word(Verb::Getpid)),
        Statement::Getppid => text.push_str(verb_word(Verb::Getppid)),
        Statement::Getpgid(arg) => put_call(text, Verb::Getpgid, arg),
        Statement::Getsid(arg) => put_call(text, Verb::Getsid, arg),
        Statement::Fork { var, script, at } => {
            text.push_str(verb_word(Verb::Fork))?;
            write!(text, " v{var} s{script}")?;
            put_site(text, at)
        }
        Statement::Exec(script) => {
            text.push_str(verb_word(Verb::Exec))?;
            write!(text, " s{script}")
        }
        Statement::Exit(number) => {
            text.push_str(verb_word(Verb::Exit))?;
            write!(text, " {number}")
        }
        Statement::Wait {
            sleeps,
            any,
            minus,
            arg,
            stopped,
            continued,
        } => {
            text.push_str(verb_word(if sleeps { Verb::Wait } else { Verb::Poll }))?;
            put_selector(text, any, minus, arg)?;
            put_changes(text, stopped, continued)
        }
        Statement::Kill { minus, arg, sig } => {
            text.push_str(verb_word(Verb::Kill))?;
            put_target(text, minus, arg)?;
            put_signal(text, sig)
        }
        Statement::Setpgid { pid, minus, pgid } => {
            put_call(text, Verb::Setpgid, pid)?;
            put_target(text, minus, pgid)
        }
        Statement::Setsid => text.push_str(verb_word(Verb::Setsid)),
        Statement::Action { sig, act } => {
            text.push_str(verb_word(Verb::Action))?;
            put_signal(text, sig)?;
            put_word(text, act_word(act))
        }
        Statement::Mask(set) => {
            text.push_str(verb_word(Verb::Mask))?;
            put_members(text, set)
        }
        Statement::Pending => text.push_str(verb_word(Verb::Pending)),
        Statement::Migrate(node) => {
            let number = node.0;
            text.push_str(verb_word(Verb::Migrate))?;
            write!(text, " {number}")
        }
    }
}

// A call and the process that it names.
fn put_call(text: &mut String, call: Verb, arg: Arg) -> Result<(), AllocError>
    ensures { OnOk result (string_bytes text.new ≡ string_bytes text.old ++ word_of call ++ 32 ∷ arg_word arg) }
{
    text.push_str(verb_word(call))?;
    text.push_str(" ")?;
    put_arg(text, arg)
}

fn put_arg(text: &mut String, arg: Arg) -> Result<(), AllocError>
    ensures { OnOk result (string_bytes text.new ≡ string_bytes text.old ++ arg_word arg) }
{
    match arg {
        Arg::Zero => text.push_str("0"),
        Arg::One => text.push_str("1"),
        Arg::Nobody => text.push_str("none"),
        Arg::Own => text.push_str("self"),
        Arg::Maker => text.push_str("maker"),
        Arg::Var(number) => write!(text, "v{number}"),
    }
}

// A process, or a group behind a minus.
fn put_target(text: &mut String, minus: bool, arg: Arg) -> Result<(), AllocError>
    ensures { OnOk result (string_bytes text.new ≡ string_bytes text.old ++ 32 ∷ target_word minus arg) }
{
    if minus {
        text.push_str(" -")?;
        return put_arg(text, arg);
    }
    text.push_str(" ")?;
    put_arg(text, arg)
}

fn put_selector(text: &mut String, any: bool, minus: bool, arg: Arg) -> Result<(), AllocError>
    ensures { OnOk result (string_bytes text.new ≡ string_bytes text.old ++ 32 ∷ selector_word any minus arg) }
{
    if any {
        return text.push_str(" any");
    }
    put_target(text, minus, arg)
}

fn put_site(text: &mut String, at: Option<NodeId>) -> Result<(), AllocError>
    ensures { OnOk result (string_bytes text.new ≡ string_bytes text.old ++ spaced (site_words at)) }
{
    match at {
        Some(node) => {
            let number = node.0;
            write!(text, " at {number}")
        }
        None => Ok(()),
    }
}
