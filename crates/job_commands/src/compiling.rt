// A job file is compiled.
ghost use Rattle.std.specs.Prelude.{◌≡◌, ◌≢◌, IfOk};
ghost use Rattle.command_ends.specs.Ends.{IsAnswered};
ghost use Rattle.job_commands.specs.Compiling.{fault_line, Compiles};

use byte_ends::{Sink, Source};
use command_ends::{Answer, Reader, Status, read_and_answer};
use job_files::{JobFault, JobRefusal};
use job_shell::compile;
use std::alloc::{AllocError, Global};
use unix_names::NoMemory;

/// The command that writes the file of scripts that a job file becomes, or its least fault.
#[derive(Clone, Copy, Debug)]
pub struct Compile;

impl Reader for Compile {
    ghost use Rattle.job_commands.specs.Compiling.{Compiles};

    ghost says = { λ _. Compiles };

    fn answer(&self, alloc: Global, input: &[u8]) -> Result<Answer, NoMemory> {
        match compile(alloc, input) {
            Err(JobRefusal::NoMemory) => Err(NoMemory),
            Err(JobRefusal::Bad(fault)) => fault_answer(alloc, &fault),
            Ok(compiled) => Ok(Answer {
                status: Status::Done,
                text: compiled.text,
            }),
        }
    }
}

/// The answer to a job file with this fault: the line that says it.
pub fn fault_answer(alloc: Global, fault: &JobFault) -> Result<Answer, NoMemory>
    ensures status { IfOk result (λ a. a.status ≡ Status.BadFile) }
    ensures text { IfOk result (λ a. a.text.items ≡ fault_line fault.now) }
{
    let text = fault_line(alloc, fault)?;
    Ok(Answer {
        status: Status::BadFile,
        text,
    })
}

fn fault_line(alloc: Global, fault: &JobFault) -> Result<Vec<u8>, AllocError>
    ensures { IfOk result (λ text. text.items ≡ fault_line fault.now) }
{
    let mut text = String::new(alloc);
    let fault = *fault;
    write!(text, "{fault}\n")?;
    Ok(text.into_bytes())
}

/// Reads a job file, and writes the file of scripts that it becomes, or its least fault.
pub fn compile_top<S: Source, K: Sink>(alloc: Global, source: &mut S, sink: &mut K) -> Status
    ensures command { result ≢ Status.BadWords }
    ensures answered { IsAnswered S.left S.faults K.taken K.faults Compiles source.old source.new sink.old sink.new result }
{
    read_and_answer(alloc, &Compile, source, sink)
}
