// setpgid.
ghost use Rattle.std.specs.Prelude.{◌≡◌};
ghost use Rattle.std.specs.List.{list_any};
ghost use Rattle.unix_calls.specs.Calls.{IsName};
ghost use Rattle.kernel_rules.specs.Setpgid.{target_pid, wanted_group, is_own, is_execed_child, is_in_session_group, is_fixed_in_group, regroup_refusal, setpgid_refusal, after_setpgid};

use process_table::{Change, ProcessTable, Row, find_named};
use unix_calls::Reply;
use unix_names::{Errno, Pid, is_living};

/// The process whose group `setpgid` sets, where 0 is the caller.
pub fn target_pid(caller: &Row, number: u32) -> Pid
    ensures { result ≡ target_pid caller.now number }
{
    if number == 0 { caller.pid } else { Pid(number) }
}

/// The group that `setpgid` asks for, where 0 is the process's own pid.
pub fn wanted_group(caller: &Row, number: u32, group: u32) -> Pid
    ensures { result ≡ wanted_group caller.now number group }
{
    if group == 0 {
        target_pid(caller, number)
    } else {
        Pid(group)
    }
}

fn has_session_group(rows: &[Row], caller: &Row, group: Pid) -> bool
    ensures { result ≡ list_any (is_in_session_group caller.now group) rows.now }
{
    rows.iter()
        .any(|row| row.group == group && row.session == caller.session)
}

fn is_fixed_in_group(rows: &[Row], caller: &Row, target: &Row, group: Pid) -> bool
    ensures { result ≡ is_fixed_in_group rows.now caller.now target.now group }
{
    target.session == target.pid
        || target.session != caller.session
        || (group != target.pid && !has_session_group(rows, caller, group))
}

fn regroup_refusal(rows: &[Row], caller: &Row, target: Option<Row>, group: Pid) -> Option<Errno>
    ensures { result ≡ regroup_refusal rows.now caller.now target group }
{
    let Some(target) = target else {
        return Some(Errno::ESRCH);
    };
    if target.pid != caller.pid && !(target.parent == caller.pid && is_living(target.life)) {
        Some(Errno::ESRCH)
    } else if target.parent == caller.pid && target.execed {
        Some(Errno::EACCES)
    } else if is_fixed_in_group(rows, caller, &target, group) {
        Some(Errno::EPERM)
    } else {
        None
    }
}

pub fn setpgid_refusal(rows: &[Row], caller: &Row, number: u32, pgid: i64) -> Option<Errno>
    requires { IsName pgid }
    ensures { result ≡ setpgid_refusal rows.now caller.now number pgid }
{
    if pgid < 0 {
        return Some(Errno::EINVAL);
    }
    let group = wanted_group(caller, number, pgid as u32);
    regroup_refusal(rows, caller, find_named(rows, caller, number), group)
}

pub fn setpgid(table: &mut ProcessTable, caller: &Row, number: u32, pgid: i64, reply: &Reply)
    requires { IsName pgid }
    ensures { table.new ≡ after_setpgid table.old caller.now number pgid reply.now }
{
    if let Reply::Fine = *reply {
        if pgid >= 0 {
            let group = wanted_group(caller, number, pgid as u32);
            table.change_row(target_pid(caller, number), &Change::Regrouped(group));
        }
    }
}
