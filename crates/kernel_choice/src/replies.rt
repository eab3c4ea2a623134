// The reply of a call.
ghost use Rattle.std.specs.Prelude.{◌≡◌, find};
ghost use Rattle.unix_calls.specs.Calls.{HasNames};
ghost use Rattle.kernel_rules.specs.Wait.{is_ready_match};
ghost use Rattle.kernel_choice.specs.Choice.{group_reply, session_reply, child_reply, answer_of, reply_of};

use kernel_rules::{has_ready_match, is_ready_match, refusal, report_of};
use process_table::{ProcessTable, Row, find_named};
use unix_calls::{Call, Reply, Selector, selector_of};
use unix_names::{Errno, Pid};

fn group_reply(row: Option<Row>) -> Reply
    ensures { result ≡ group_reply row }
{
    match row {
        None => Reply::Refused(Errno::ESRCH),
        Some(row) => Reply::Number(row.group.0),
    }
}

fn session_reply(row: Option<Row>) -> Reply
    ensures { result ≡ session_reply row }
{
    match row {
        None => Reply::Refused(Errno::ESRCH),
        Some(row) => Reply::Number(row.session.0),
    }
}

fn child_reply(stopped: bool, continued: bool, child: Option<Row>) -> Reply
    ensures { result ≡ child_reply stopped continued child }
{
    let Some(child) = child else {
        return Reply::Again;
    };
    match report_of(&child, stopped, continued) {
        None => Reply::Again,
        Some(status) => Reply::Child(child.pid, status),
    }
}

fn first_ready_row(
    rows: &[Row],
    caller: &Row,
    selector: Selector,
    stopped: bool,
    continued: bool,
) -> Option<Row>
    ensures { result ≡ find (is_ready_match caller.now selector stopped continued) rows.now }
{
    rows.iter().copied().find(|row| is_ready_match(caller, selector, stopped, continued, row))
}

/// The first row of the table that is that of a child of the caller that the selector names and that has something to report.
fn first_ready(
    table: &ProcessTable,
    caller: &Row,
    selector: Selector,
    stopped: bool,
    continued: bool,
) -> Option<Row>
    ensures { result ≡ find (is_ready_match caller.now selector stopped continued) table.now }
{
    if has_ready_match(table, caller, selector, stopped, continued) {
        first_ready_row(table.rows(), caller, selector, stopped, continued)
    } else {
        None
    }
}

fn answer_of(table: &ProcessTable, caller: &Row, call: &Call, fresh: Pid) -> Reply
    requires { HasNames call.now }
    ensures { result ≡ answer_of table.now caller.now call.now fresh.0 }
{
    match *call {
        Call::Getpid | Call::Setsid => Reply::Number(caller.pid.0),
        Call::Getppid => Reply::Number(caller.parent.0),
        Call::Getpgid(number) => group_reply(find_named(table.rows(), caller, number)),
        Call::Getsid(number) => session_reply(find_named(table.rows(), caller, number)),
        Call::Fork => Reply::Number(fresh.0),
        Call::Waitpid {
            sel,
            stopped,
            continued,
        } => {
            let child = first_ready(table, caller, selector_of(sel), stopped, continued);
            child_reply(stopped, continued, child)
        }
        Call::Exit(_) => Reply::NoReply,
        Call::Mask(_) => Reply::Set(caller.sig.mask),
        Call::Pending => Reply::Set(caller.sig.pending),
        Call::Exec
        | Call::Kill { .. }
        | Call::Setpgid { .. }
        | Call::Action { .. }
        | Call::Migrate => Reply::Fine,
    }
}

/// The reply of a call: its first refusal that holds, or else its answer. A fork's answer is the fresh pid, which no other call reads; a wait's is of the first row of the table that is ready.
pub fn reply_of(table: &ProcessTable, caller: &Row, call: &Call, fresh: Pid) -> Reply
    requires { HasNames call.now }
    ensures { result ≡ reply_of table.now caller.now call.now fresh.0 }
{
    match refusal(table, caller, call) {
        Some(errno) => Reply::Refused(errno),
        None => answer_of(table, caller, call, fresh),
    }
}
