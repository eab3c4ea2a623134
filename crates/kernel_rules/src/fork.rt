// fork.
ghost use Rattle.std.specs.Prelude.{◌≡◌, OnOk, OnErr};
ghost use Rattle.std.specs.List.{list_any};
ghost use Rattle.kernel_rules.specs.Fork.{fork_refusal, uses_number, is_fresh, is_fresh_number, newborn, after_fork};

use process_table::{ProcessTable, Row, count_children};
use unix_calls::Reply;
use unix_names::{Errno, Life, MOST_CHILDREN, NOBODY, NoMemory, Pid, SYSTEM};

pub fn fork_refusal(rows: &[Row], caller: &Row) -> Option<Errno>
    ensures { result ≡ fork_refusal rows.now caller.now }
{
    if count_children(rows, caller.pid) >= MOST_CHILDREN {
        Some(Errno::EAGAIN)
    } else {
        None
    }
}

fn is_used(rows: &[Row], number: u32) -> bool
    ensures { result ≡ list_any (uses_number number) rows.now }
{
    rows.iter().any(|row| row.pid.0 == number || row.group.0 == number || row.session.0 == number)
}

/// Whether a number may be the pid of a new process.
pub fn is_fresh(rows: &[Row], number: u32) -> bool
    ensures { result ≡ is_fresh rows.now number }
{
    number > SYSTEM.0 && number != NOBODY.0 && !is_used(rows, number)
}

pub fn is_fresh_number(rows: &[Row], reply: &Reply) -> bool
    ensures { result ≡ is_fresh_number rows.now reply.now }
{
    match *reply {
        Reply::Number(number) => is_fresh(rows, number),
        _ => false,
    }
}

fn newborn(caller: &Row, number: u32) -> Row
    ensures { result ≡ newborn caller.now number }
{
    Row {
        pid: Pid(number),
        parent: caller.pid,
        group: caller.group,
        session: caller.session,
        uid: caller.uid,
        life: Life::Runs,
        change: None,
        execed: false,
        sig: caller.sig.child(),
    }
}

pub fn fork(table: &mut ProcessTable, caller: &Row, reply: &Reply) -> Result<(), NoMemory>
    ensures ok { OnOk result (table.new ≡ after_fork table.old caller.now reply.now) }
    ensures err { OnErr result (table.new ≡ table.old) }
{
    if let Reply::Number(number) = *reply {
        table.push(newborn(caller, number))?;
    }
    Ok(())
}
