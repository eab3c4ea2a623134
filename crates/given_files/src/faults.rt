// What is said of a fault.
ghost use Rattle.std.specs.Prelude.{◌≡◌, IfOk};
ghost use Rattle.given_files.specs.Input.{fault_line};

use command_ends::{Answer, Status};
use script_words::Fault;
use std::alloc::{AllocError, Global};
use unix_names::NoMemory;

/// The answer to an input with this fault: the line that says it.
pub fn fault_answer(alloc: Global, fault: &Fault) -> Result<Answer, NoMemory>
    ensures status { IfOk result (λ a. a.status ≡ Status.BadFile) }
    ensures text { IfOk result (λ a. a.text.items ≡ fault_line fault.now) }
{
    let text = fault_line(alloc, fault)?;
    Ok(Answer {
        status: Status::BadFile,
        text,
    })
}

fn fault_line(alloc: Global, fault: &Fault) -> Result<Vec<u8>, AllocError>
    ensures { IfOk result (λ text. text.items ≡ fault_line fault.now) }
{
    let mut text = String::new(alloc);
    let fault = *fault;
    write!(text, "{fault}\n")?;
    Ok(text.into_bytes())
}
