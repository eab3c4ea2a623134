// What is said of a legal history: the table after some entries, and the ground of one of them.
ghost use Rattle.std.specs.Prelude.{◌≡◌, ◌++◌, All, IfOk, codes};
ghost use Rattle.unix_calls.specs.Calls.{EntryHasNames};
ghost use Rattle.kernel_model.specs.Legal.{IsLegal};
ghost use Rattle.table_view.specs.Told.{ground_text};
ghost use Rattle.history_shell.specs.Tables.{no_entry, table_said, ground_said};

use std::alloc::{AllocError, Global};
use table_view::{Ground, ground_of, put_table, table_after};
use unix_calls::{Entry, World};
use unix_names::NoMemory;

/// The table after the first entries, so many as `at` says, or that there are fewer.
pub fn table_told(
    alloc: Global,
    world: &World,
    entries: &[Entry],
    at: u32,
) -> Result<Vec<u8>, NoMemory>
    requires names { All EntryHasNames entries.now }
    requires legal { IsLegal world.now entries.now }
    ensures { IfOk result (λ text. text.items ≡ table_said at world.now entries.now) }
{
    let count = at as usize;
    if count > entries.len() {
        return Ok(no_entry(alloc, at)?);
    }
    let kernel = table_after(alloc, world, entries, count)?;
    put_table(alloc, kernel.rows())
}

/// The ground of the entry of this number, counted from 1, or that there is none.
pub fn ground_told(
    alloc: Global,
    world: &World,
    entries: &[Entry],
    at: u32,
) -> Result<Vec<u8>, NoMemory>
    requires names { All EntryHasNames entries.now }
    requires legal { IsLegal world.now entries.now }
    ensures { IfOk result (λ text. text.items ≡ ground_said at world.now entries.now) }
{
    if at == 0 {
        return Ok(no_entry(alloc, at)?);
    }
    let before = at as usize - 1;
    let Some(entry) = entries.get(before) else {
        return Ok(no_entry(alloc, at)?);
    };
    let kernel = table_after(alloc, world, entries, before)?;
    Ok(ground_line(alloc, ground_of(&kernel, entry))?)
}

fn ground_line(alloc: Global, ground: Ground) -> Result<Vec<u8>, AllocError>
    ensures { IfOk result (λ text. text.items ≡ ground_text ground ++ codes "\n") }
{
    let mut text = String::new(alloc);
    writeln!(text, "{ground}")?;
    Ok(text.into_bytes())
}

fn no_entry(alloc: Global, at: u32) -> Result<Vec<u8>, AllocError>
    ensures { IfOk result (λ text. text.items ≡ no_entry at) }
{
    let mut text = String::new(alloc);
    writeln!(text, "no entry {at}")?;
    Ok(text.into_bytes())
}
