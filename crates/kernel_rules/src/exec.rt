// exec.
ghost use Rattle.std.specs.Prelude.{◌≡◌};
ghost use Rattle.kernel_rules.specs.Exec.{table_after_exec};

use process_table::{Change, ProcessTable, Row};

/// The caller does exec.
pub fn exec(table: &mut ProcessTable, caller: &Row)
    ensures { table.new ≡ table_after_exec table.old caller.now }
{
    table.change_row(caller.pid, &Change::Execed);
}
