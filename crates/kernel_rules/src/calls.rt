// Every call: its first refusal, its replies, and what it changes.
ghost use Rattle.std.specs.Prelude.{◌≡◌, true, OnOk, OnErr};
ghost use Rattle.unix_calls.specs.Calls.{HasNames};
ghost use Rattle.kernel_rules.specs.Calls.{refusal, is_answer, allows, after_call};

use crate::action::{action_refusal, set_action};
use crate::exec::exec;
use crate::exit::exit;
use crate::fork::{fork, fork_refusal, is_fresh_number};
use crate::kill::{kill, kill_refusal};
use crate::look::{is_group_of, is_own_number, is_parent_number, is_session_of, look_refusal};
use crate::mask::{is_old_mask, is_pending_set, set_mask};
use crate::replies::is_refused_with;
use crate::setpgid::{setpgid, setpgid_refusal};
use crate::setsid::{setsid, setsid_refusal};
use crate::wait::{is_wait_answer, wait, wait_refusal};
use process_table::{ProcessTable, Row, find_named};
use unix_calls::{Call, Reply, selector_of, target_of};
use unix_names::{Errno, NoMemory, signal_of};

/// The first refusal of a call that holds. None where the call is not refused.
pub fn refusal(table: &ProcessTable, caller: &Row, call: &Call) -> Option<Errno>
    requires { HasNames call.now }
    ensures { result ≡ refusal table.now caller.now call.now }
{
    let rows = table.rows();
    match *call {
        Call::Getpgid(number) | Call::Getsid(number) => look_refusal(rows, caller, number),
        Call::Fork => fork_refusal(rows, caller),
        Call::Waitpid { sel, .. } => wait_refusal(table, caller, selector_of(sel)),
        Call::Kill { target, sig } => kill_refusal(rows, caller, target_of(target), sig),
        Call::Setpgid { pid, pgid } => setpgid_refusal(rows, caller, pid, pgid),
        Call::Setsid => setsid_refusal(rows, caller),
        Call::Action { sig, .. } => action_refusal(signal_of(sig)),
        Call::Getpid
        | Call::Getppid
        | Call::Exec
        | Call::Exit(_)
        | Call::Mask(_)
        | Call::Pending
        | Call::Migrate => None,
    }
}

/// Whether a call that is not refused may get a reply.
fn is_answer(table: &ProcessTable, caller: &Row, call: &Call, reply: &Reply) -> bool
    requires { HasNames call.now }
    ensures { result ≡ is_answer table.now caller.now call.now reply.now }
{
    let rows = table.rows();
    match *call {
        Call::Getpid | Call::Setsid => is_own_number(caller, reply),
        Call::Getppid => is_parent_number(caller, reply),
        Call::Getpgid(number) => is_group_of(find_named(rows, caller, number), reply),
        Call::Getsid(number) => is_session_of(find_named(rows, caller, number), reply),
        Call::Fork => is_fresh_number(rows, reply),
        Call::Waitpid {
            sel,
            stopped,
            continued,
        } => is_wait_answer(table, caller, selector_of(sel), stopped, continued, reply),
        Call::Exit(_) => matches!(*reply, Reply::NoReply),
        Call::Mask(_) => is_old_mask(caller, reply),
        Call::Pending => is_pending_set(caller, reply),
        Call::Exec
        | Call::Kill { .. }
        | Call::Setpgid { .. }
        | Call::Action { .. }
        | Call::Migrate => matches!(*reply, Reply::Fine),
    }
}

/// Whether a call may get a reply: its first refusal, or where none holds another reply of the call.
pub fn allows(table: &ProcessTable, caller: &Row, call: &Call, reply: &Reply) -> bool
    requires { HasNames call.now }
    ensures { result ≡ allows table.now caller.now call.now reply.now }
{
    match refusal(table, caller, call) {
        Some(errno) => is_refused_with(errno, reply),
        None => is_answer(table, caller, call, reply),
    }
}

/// Changes the table as a call says that got a reply.
pub fn call(
    table: &mut ProcessTable,
    caller: &Row,
    call: &Call,
    reply: &Reply,
) -> Result<(), NoMemory>
    requires names { HasNames call.now }
    requires allowed { allows table.old caller.now call.now reply.now ≡ true }
    ensures ok { OnOk result (table.new ≡ after_call table.old caller.now call.now reply.now) }
    ensures err { OnErr result (table.new ≡ table.old) }
{
    match *call {
        Call::Fork => fork(table, caller, reply)?,
        Call::Exec => exec(table, caller),
        Call::Exit(number) => exit(table, caller, number)?,
        Call::Waitpid { .. } => wait(table, reply),
        Call::Kill { target, sig } => kill(table, caller, target_of(target), sig, reply),
        Call::Setpgid { pid, pgid } => setpgid(table, caller, pid, pgid, reply),
        Call::Setsid => setsid(table, caller, reply),
        Call::Action { sig, act } => set_action(table, caller, signal_of(sig), act, reply),
        Call::Mask(set) => set_mask(table, caller, set),
        Call::Getpid
        | Call::Getppid
        | Call::Getpgid(_)
        | Call::Getsid(_)
        | Call::Pending
        | Call::Migrate => {}
    }
    Ok(())
}
