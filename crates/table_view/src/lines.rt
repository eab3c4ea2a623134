// The text of a table.
ghost use Rattle.std.specs.Prelude.{◌≡◌, ◌++◌, ◌∷◌, IfOk, OnOk};
ghost use Rattle.std.specs.String.{string_bytes};
ghost use Rattle.script_words.specs.Writing.{spaced};
ghost use Rattle.histories.specs.History.{set_words};
ghost use Rattle.table_view.specs.Rows.{life_words, ids_text, sets_text, signals_text, row_line, table_text};

use histories::{put_set, put_status};
use process_table::Row;
use script_words::put_word;
use signal_state::Sig;
use std::alloc::{AllocError, Global};
use unix_names::{Life, NoMemory, SigSet};

/// The text of a table: a line for each row, in order of creation.
pub fn put_table(alloc: Global, rows: &[Row]) -> Result<Vec<u8>, NoMemory>
    ensures { IfOk result (λ bytes. bytes.items ≡ table_text rows.now) }
{
    let mut text = String::new(alloc);
    for row in rows {
        put_row(&mut text, row)?;
    }
    Ok(text.into_bytes())
}

fn put_row(text: &mut String, row: &Row) -> Result<(), AllocError>
    ensures { OnOk result (string_bytes text.new ≡ string_bytes text.old ++ row_line row.now) }
{
    put_ids(text, row)?;
    put_life(text, row.life)?;
    put_signals(text, row.sig)?;
    text.push_str("\n")
}

fn put_ids(text: &mut String, row: &Row) -> Result<(), AllocError>
    ensures { OnOk result (string_bytes text.new ≡ string_bytes text.old ++ ids_text row.now) }
{
    let pid = row.pid.0;
    let parent = row.parent.0;
    let group = row.group.0;
    let session = row.session.0;
    let uid = row.uid;
    write!(text, "{pid} {parent} {group} {session} {uid}")
}

fn put_life(text: &mut String, life: Life) -> Result<(), AllocError>
    ensures { OnOk result (string_bytes text.new ≡ string_bytes text.old ++ spaced (life_words life)) }
{
    match life {
        Life::Runs => text.push_str(" runs"),
        Life::Stopped => text.push_str(" stopped"),
        Life::Ended(status) => put_status(text, status),
    }
}

fn put_signals(text: &mut String, sig: Sig) -> Result<(), AllocError>
    ensures { OnOk result (string_bytes text.new ≡ string_bytes text.old ++ signals_text sig) }
{
    put_sets(text, sig.pending, sig.mask)
}

fn put_sets(text: &mut String, pending: SigSet, mask: SigSet) -> Result<(), AllocError>
    ensures { OnOk result (string_bytes text.new ≡ string_bytes text.old ++ sets_text pending mask) }
{
    put_named_set(text, "pending", pending)?;
    put_named_set(text, "mask", mask)
}

fn put_named_set(text: &mut String, name: &str, set: SigSet) -> Result<(), AllocError>
    ensures { OnOk result (string_bytes text.new ≡ string_bytes text.old ++ spaced (name.now ∷ set_words set)) }
{
    put_word(text, name)?;
    put_set(text, set)
}
