// getpid, getppid, getpgid and getsid.
ghost use Rattle.std.specs.Prelude.{◌≡◌};
ghost use Rattle.kernel_rules.specs.Look.{look_refusal, is_own_number, is_parent_number, is_group_of, is_session_of};

use crate::replies::is_number;
use process_table::{Row, find_named};
use unix_calls::Reply;
use unix_names::{Errno, SYSTEM};

pub fn look_refusal(rows: &[Row], caller: &Row, number: u32) -> Option<Errno>
    ensures { result ≡ look_refusal rows.now caller.now number }
{
    if number == SYSTEM.0 {
        Some(Errno::EPERM)
    } else if find_named(rows, caller, number).is_none() {
        Some(Errno::ESRCH)
    } else {
        None
    }
}

/// Whether a reply is the caller's pid.
pub fn is_own_number(caller: &Row, reply: &Reply) -> bool
    ensures { result ≡ is_own_number caller.now reply.now }
{
    is_number(caller.pid.0, reply)
}

/// Whether a reply is the pid of the caller's parent.
pub fn is_parent_number(caller: &Row, reply: &Reply) -> bool
    ensures { result ≡ is_parent_number caller.now reply.now }
{
    is_number(caller.parent.0, reply)
}

pub fn is_group_of(row: Option<Row>, reply: &Reply) -> bool
    ensures { result ≡ is_group_of row reply.now }
{
    match row {
        None => false,
        Some(row) => is_number(row.group.0, reply),
    }
}

pub fn is_session_of(row: Option<Row>, reply: &Reply) -> bool
    ensures { result ≡ is_session_of row reply.now }
{
    match row {
        None => false,
        Some(row) => is_number(row.session.0, reply),
    }
}
