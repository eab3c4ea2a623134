// Whole files.
ghost use Rattle.std.specs.Prelude.{◌≡◌, ◌++◌, ◌∷◌, [], IfOk, OnOk, map, codes};
ghost use Rattle.std.specs.List.{flat_map};
ghost use Rattle.std.specs.String.{string_bytes};
ghost use Rattle.script_words.specs.Writing.{spaced};
ghost use Rattle.script_writer.specs.Written.{spelled, line_text, statement_words, script_rows, scripts_rows, uid_words, joined_words, with_words, start_row, file_text};

use crate::statements::put_statement;
use std::alloc::{AllocError, Global};
use unix_calls::{Script, Start, Statement, World};
use unix_names::NoMemory;

/// The file of a world. Its scripts go by the names `s0`, `s1`, .. and its variables by `v0`, `v1`, ...
///
/// Reading the file of a world that was read gives that world back.
///
/// # Errors
/// `NoMemory` where memory runs out.
pub fn write_file(alloc: Global, world: &World) -> Result<Vec<u8>, NoMemory>
    ensures { IfOk result (λ bytes. bytes.items ≡ file_text world.now) }
{
    let mut text = String::new(alloc);
    let nodes = world.nodes;
    write!(text, "cluster {nodes}\n")?;
    put_scripts(&mut text, world.scripts.as_slice())?;
    put_starts(&mut text, world.starts.as_slice())?;
    Ok(text.into_bytes())
}

fn put_scripts(text: &mut String, scripts: &[Script]) -> Result<(), AllocError>
    ensures { OnOk result (string_bytes text.new ≡ string_bytes text.old ++ flat_map line_text (scripts_rows 0 scripts.now)) }
{
    for (k, script) in scripts.iter().enumerate() {
        put_script(text, k, script)?;
    }
    Ok(())
}

fn put_script(text: &mut String, number: usize, script: &Script) -> Result<(), AllocError>
    ensures { OnOk result (string_bytes text.new ≡ string_bytes text.old ++ flat_map line_text (script_rows number script.now)) }
{
    write!(text, "script s{number}\n")?;
    put_statements(text, script.statements.as_slice())?;
    text.push_str("end\n")
}

fn put_statements(text: &mut String, statements: &[Statement]) -> Result<(), AllocError>
    ensures { OnOk result (string_bytes text.new ≡ string_bytes text.old ++ flat_map line_text (map statement_words statements.now)) }
{
    for statement in statements {
        put_statement(text, statement)?;
        text.push_str("\n")?;
    }
    Ok(())
}

fn put_starts(text: &mut String, starts: &[Start]) -> Result<(), AllocError>
    ensures { OnOk result (string_bytes text.new ≡ string_bytes text.old ++ flat_map line_text (map (start_row starts.now) starts.now)) }
{
    for start in starts {
        put_start(text, starts, start)?;
    }
    Ok(())
}

fn put_start(text: &mut String, starts: &[Start], start: &Start) -> Result<(), AllocError>
    ensures { OnOk result (string_bytes text.new ≡ string_bytes text.old ++ line_text (start_row starts.now start.now)) }
{
    let node = start.node.0;
    let script = start.script;
    let var = start.var;
    write!(text, "start {node} s{script} v{var}")?;
    put_uid(text, start.uid)?;
    put_joined(text, starts, start.joined)?;
    text.push_str("\n")
}

fn put_uid(text: &mut String, uid: u32) -> Result<(), AllocError>
    ensures { OnOk result (string_bytes text.new ≡ string_bytes text.old ++ spaced (uid_words uid)) }
{
    if uid == 0 {
        return Ok(());
    }
    write!(text, " uid {uid}")
}

// The start that a start joins, by its variable.
fn put_joined(text: &mut String, starts: &[Start], joined: Option<usize>) -> Result<(), AllocError>
    ensures { OnOk result (string_bytes text.new ≡ string_bytes text.old ++ spaced (joined_words starts.now joined)) }
{
    match joined {
        Some(at) => put_with(text, starts.get(at).copied()),
        None => Ok(()),
    }
}

fn put_with(text: &mut String, other: Option<Start>) -> Result<(), AllocError>
    ensures { OnOk result (string_bytes text.new ≡ string_bytes text.old ++ spaced (with_words other)) }
{
    match other {
        Some(start) => {
            let var = start.var;
            write!(text, " with v{var}")
        }
        None => Ok(()),
    }
}
