// From the bytes of a job file to the bytes of its scripts.
ghost use Rattle.std.specs.Prelude.{◌≡◌, ◌<◌, ◌^◌, Err, length, IfOk};
ghost use Rattle.byte_ends.specs.Text.{lines};
ghost use Rattle.job_files.specs.declared.JobFault.{JobFault as Fault};
ghost use Rattle.job_reading_laws.specs.Faults.{IsLeastFault};
ghost use Rattle.job_shell.specs.Compiled.{IsCompiled};

use crate::worlds::world_of;
use job_files::{JobRefusal, read_jobs};
use script_writer::write_file;
use std::alloc::Global;
use unix_calls::World;

/// What a job file becomes: a world, and its file.
#[derive(Debug, Drop)]
pub struct Compiled {
    pub world: World,
    pub text: Vec<u8>,
}

/// The world and the text that a job file becomes, or the least fault of the job file.
///
/// # Errors
/// `Bad` with the least line that has a fault, counted from 1, and its first fault; `NoMemory` where memory runs out.
#[tactic(auto, using(crate::proofs::Carried::is_compiled, crate::proofs::Carried::is_refused))]
pub fn compile(alloc: Global, bytes: &[u8]) -> Result<Compiled, JobRefusal>
    requires { length bytes.now < 2 ^ 31 }
    ensures compiled { IfOk result (λ c. IsCompiled (lines bytes.now) c.world c.text.items) }
    ensures bad { (fault : Fault) → result ≡ Err (JobRefusal.Bad fault) → IsLeastFault (lines bytes.now) fault }
{
    let file = read_jobs(alloc, bytes)?;
    let world = world_of(alloc, &file)?;
    let text = write_file(alloc, &world)?;
    Ok(Compiled { world, text })
}
