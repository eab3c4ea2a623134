// The two ends of a command: its input is read to its end, and a whole text is written.
ghost use Rattle.std.specs.Prelude.{◌≡◌, ◌≢◌, ◌+◌, ◌<◌, ◌⊎◌, ℕ, take, length, Err, IfOk, IfErr};
ghost use Rattle.std.specs.Io.KnownBytes.{Appends};
ghost use Rattle.byte_ends.specs.Causes.{Rose};
ghost use Rattle.byte_ends.specs.declared.limits.TheConstants.{LONGEST_INPUT};
ghost use Rattle.command_ends.specs.Ends.{IsRead, ReadsUpTo, ReadsCount, IsAnswered};

use crate::status::Status;
use byte_ends::{LONGEST_INPUT, ReadEnd, Sink, Source, read_all, write_all};
use std::alloc::Global;
use unix_names::NoMemory;

/// What is written for an input, and the status.
#[derive(Debug, Drop)]
pub struct Answer {
    pub status: Status,
    pub text: Vec<u8>,
}

/// A command that reads its input and answers it by one text.
pub trait Reader {
    ghost use Rattle.std.specs.Prelude.{◌≤◌, IfOk, length};
    ghost use Rattle.byte_ends.specs.declared.limits.TheConstants.{LONGEST_INPUT};
    ghost use Rattle.command_ends.specs.Ends.{Texts, HasText};

    /// Which text belongs to an input, by the status.
    ghost says: { Self → Texts };

    /// The text that belongs to an input, and its status.
    fn answer(&self, alloc: Global, input: &[u8]) -> Result<Answer, NoMemory>
        requires { length input.now ≤ LONGEST_INPUT }
        ensures has_text { IfOk result (λ a. HasText a.status) }
        ensures text { IfOk result (λ a. says self.now a.status input.now a.text.items) };
}

/// Reads an input to its end, and writes what a command answers.
pub fn read_and_answer<R: Reader, S: Source, K: Sink>(
    alloc: Global,
    reader: &R,
    source: &mut S,
    sink: &mut K,
) -> Status
    ensures command { result ≢ Status.BadWords }
    ensures answered { IsAnswered S.left S.faults K.taken K.faults (R.says reader.now) source.old source.new sink.old sink.new result }
{
    match read_input(alloc, source) {
        Err(status) => status,
        Ok(input) => match reader.answer(alloc, &input) {
            Err(_) => Status::NoMemory,
            Ok(answer) => put(sink, &answer.text, answer.status),
        },
    }
}

/// The whole of an input, or how its reading ended.
pub fn read_input<S: Source>(alloc: Global, source: &mut S) -> Result<Vec<u8>, Status>
    ensures read { IfOk result (λ v. IsRead (S.left source.old) (S.left source.new) v.items) }
    ensures some { IfErr result (λ s. (s ≡ Status.ReadFault) ⊎ ((s ≡ Status.TooLong) ⊎ (s ≡ Status.NoMemory))) }
    ensures read_fault { result ≡ Err Status.ReadFault → Rose (S.faults source.old) (S.faults source.new) }
    ensures too_long { result ≡ Err Status.TooLong → ReadsCount (LONGEST_INPUT + 1) (S.left source.old) (S.left source.new) }
    ensures bounded { ReadsUpTo (LONGEST_INPUT + 1) (S.left source.old) (S.left source.new) }
{
    match read_all(alloc, source, LONGEST_INPUT) {
        Ok(input) => Ok(input),
        Err(ReadEnd::ReadFault) => Err(Status::ReadFault),
        Err(ReadEnd::TooLong) => Err(Status::TooLong),
        Err(ReadEnd::NoMemory) => Err(Status::NoMemory),
    }
}

/// Writes a whole text: the status, or a write fault. It takes no memory.
pub fn put<K: Sink>(sink: &mut K, bytes: &[u8], status: Status) -> Status
    requires { status ≢ Status.WriteFault }
    ensures whole { result ≡ status → Appends (K.taken sink.old) (K.taken sink.new) bytes.now }
    ensures fault { result ≡ Status.WriteFault → Rose (K.faults sink.old) (K.faults sink.new)
        × ((n : ℕ) × (n < length bytes.now) × Appends (K.taken sink.old) (K.taken sink.new) (take n bytes.now)) }
    ensures some { (result ≡ status) ⊎ (result ≡ Status.WriteFault) }
{
    match write_all(sink, bytes) {
        Ok(()) => status,
        Err(_) => Status::WriteFault,
    }
}
