// exit.
ghost use Rattle.std.specs.Prelude.{◌≡◌, OnOk, OnErr};
ghost use Rattle.kernel_rules.specs.Exit.{exit_status, after_exit};

use crate::ending::end;
use process_table::{ProcessTable, Row};
use unix_names::{NoMemory, WaitStatus};

/// Ends the caller with the low eight bits of a number.
pub fn exit(table: &mut ProcessTable, caller: &Row, number: u32) -> Result<(), NoMemory>
    ensures ok { OnOk result (table.new ≡ after_exit table.old caller.now number) }
    ensures err { OnErr result (table.new ≡ table.old) }
{
    end(table, caller, WaitStatus::Exited((number % 256) as u8))
}
