// The table after some entries.
ghost use Rattle.std.specs.Prelude.{◌≡◌, ◌≤◌, All, IfOk, OnOk, length, take};
ghost use Rattle.unix_calls.specs.Calls.{EntryHasNames};
ghost use Rattle.kernel_model.specs.Legal.{after_entries, after_all, IsLegalFrom, IsLegal};

use kernel_model::Kernel;
use std::alloc::Global;
use unix_calls::{Entry, World};
use unix_names::NoMemory;

/// The kernel's table after the first entries of a history, so many as `at` says.
///
/// The history is legal, and has so many entries.
pub fn table_after(
    alloc: Global,
    world: &World,
    entries: &[Entry],
    at: usize,
) -> Result<Kernel, NoMemory>
    requires names { All EntryHasNames entries.now }
    requires legal { IsLegal world.now entries.now }
    requires within { at ≤ length entries.now }
    ensures { IfOk result (λ kernel. kernel ≡ after_all world.now (take at entries.now)) }
{
    let mut kernel = Kernel::boot(alloc, world)?;
    take_steps(&mut kernel, &entries[..at])?;
    Ok(kernel)
}

// Takes the steps of entries that are legal one after the other.
fn take_steps(kernel: &mut Kernel, entries: &[Entry]) -> Result<(), NoMemory>
    requires names { All EntryHasNames entries.now }
    requires legal { IsLegalFrom kernel.old entries.now }
    ensures { OnOk result (kernel.new ≡ after_entries kernel.old entries.now) }
{
    for entry in entries {
        kernel.step(entry)?;
    }
    Ok(())
}
