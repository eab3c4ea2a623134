// setsid.
ghost use Rattle.std.specs.Prelude.{◌≡◌};
ghost use Rattle.std.specs.List.{list_any};
ghost use Rattle.process_table.specs.Rows.{in_group};
ghost use Rattle.kernel_rules.specs.Setsid.{setsid_refusal, after_setsid};

use process_table::{Change, ProcessTable, Row};
use unix_calls::Reply;
use unix_names::{Errno, Pid};

fn names_group(rows: &[Row], group: Pid) -> bool
    ensures { result ≡ list_any (in_group group) rows.now }
{
    rows.iter().any(|row| row.group == group)
}

pub fn setsid_refusal(rows: &[Row], caller: &Row) -> Option<Errno>
    ensures { result ≡ setsid_refusal rows.now caller.now }
{
    if names_group(rows, caller.pid) {
        Some(Errno::EPERM)
    } else {
        None
    }
}

pub fn setsid(table: &mut ProcessTable, caller: &Row, reply: &Reply)
    ensures { table.new ≡ after_setsid table.old caller.now reply.now }
{
    if let Reply::Number(_) = *reply {
        table.change_row(caller.pid, &Change::Leading);
    }
}
