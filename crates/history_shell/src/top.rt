// The commands that hear a history, from the source to the sink and the status.
ghost use Rattle.std.specs.Prelude.{◌≡◌, ◌≢◌, ◌≤◌, All, IfOk, codes, length};
ghost use Rattle.kernel_model.specs.Legal.{IsLegal};
ghost use Rattle.unix_calls.specs.Calls.{EntryHasNames};
ghost use Rattle.command_ends.specs.Ends.{IsAnswered};
ghost use Rattle.history_shell.specs.Audit.{Audits};
ghost use Rattle.history_shell.specs.Tables.{TellsTable, TellsGround};
ghost use Rattle.history_shell.specs.MethodAsked.{said};

use crate::hearing::{Heard, hear};
use crate::tables::{ground_told, table_told};
use byte_ends::{Sink, Source};
use command_ends::{Answer, Reader, Status, read_and_answer};
use std::alloc::{AllocError, Global};
use unix_calls::{Entry, World};
use unix_names::NoMemory;

/// What is asked of a history.
#[derive(Clone, Copy, Debug)]
enum Asked {
    /// Whether it is legal.
    Verdict,
    /// The table after so many entries.
    Table(u32),
    /// The ground of the entry of this number, counted from 1.
    Ground(u32),
}

impl Reader for Asked {
    ghost use Rattle.history_shell.specs.Hearing.{Hears};
    ghost use Rattle.history_shell.specs.MethodAsked.{said};

    ghost says = { λ asked. Hears (said asked) };

    fn answer(&self, alloc: Global, input: &[u8]) -> Result<Answer, NoMemory> {
        match hear(alloc, input)? {
            Heard::Refused(answer) => Ok(answer),
            Heard::Legal(given, entries) => {
                let text = told(alloc, *self, &given.world, &entries)?;
                Ok(Answer {
                    status: Status::Done,
                    text,
                })
            }
        }
    }
}

/// Reads a file with a history, and writes the verdict on it.
pub fn audit_top<S: Source, K: Sink>(alloc: Global, source: &mut S, sink: &mut K) -> Status
    ensures command { result ≢ Status.BadWords }
    ensures answered { IsAnswered S.left S.faults K.taken K.faults Audits source.old source.new sink.old sink.new result }
{
    read_and_answer(alloc, &Asked::Verdict, source, sink)
}

/// Reads a file with a history, and writes the kernel's table after so many of its entries.
pub fn table_top<S: Source, K: Sink>(alloc: Global, at: u32, source: &mut S, sink: &mut K) -> Status
    ensures command { result ≢ Status.BadWords }
    ensures answered { IsAnswered S.left S.faults K.taken K.faults (TellsTable at) source.old source.new sink.old sink.new result }
{
    read_and_answer(alloc, &Asked::Table(at), source, sink)
}

/// Reads a file with a history, and writes the ground of the entry of this number, counted from 1.
pub fn why_top<S: Source, K: Sink>(alloc: Global, at: u32, source: &mut S, sink: &mut K) -> Status
    ensures command { result ≢ Status.BadWords }
    ensures answered { IsAnswered S.left S.faults K.taken K.faults (TellsGround at) source.old source.new sink.old sink.new result }
{
    read_and_answer(alloc, &Asked::Ground(at), source, sink)
}

// What is said of a legal history.
fn told(alloc: Global, asked: Asked, world: &World, entries: &[Entry]) -> Result<Vec<u8>, NoMemory>
    requires names { All EntryHasNames entries.now }
    requires legal { IsLegal world.now entries.now }
    ensures { IfOk result (λ text. text.items ≡ said asked world.now entries.now) }
{
    match asked {
        Asked::Verdict => Ok(legal_told(alloc)?),
        Asked::Table(at) => table_told(alloc, world, entries, at),
        Asked::Ground(at) => ground_told(alloc, world, entries, at),
    }
}

fn legal_told(alloc: Global) -> Result<Vec<u8>, AllocError>
    ensures { IfOk result (λ text. text.items ≡ codes "legal\n") }
{
    let mut text = String::new(alloc);
    text.push_str("legal\n")?;
    Ok(text.into_bytes())
}
