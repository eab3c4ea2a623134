// waitpid, always with WNOHANG.
ghost use Rattle.std.specs.Prelude.{◌≡◌};
ghost use Rattle.std.specs.List.{list_any};
ghost use Rattle.process_table.specs.Rows.{row_of, passes};
ghost use Rattle.kernel_rules.specs.Wait.{selects, is_match, wait_refusal, asked_change, report_of, is_ready_match, is_same_status, is_report, reports, is_wait_answer, after_wait};

use process_table::{Change, ProcessTable, Row};
use unix_calls::{Reply, Selector};
use unix_names::{Errno, Life, Pid, WaitStatus};

/// Whether a row is that of a child of the caller that the selector names.
pub fn is_match(caller: &Row, selector: Selector, row: &Row) -> bool
    ensures { result ≡ is_match caller.now selector row.now }
{
    let is_selected = match selector {
        Selector::Any => true,
        Selector::OwnGroup => row.group == caller.group,
        Selector::One(pid) => row.pid == pid,
        Selector::InGroup(group) => row.group == group,
    };
    row.parent == caller.pid && is_selected
}

/// Whether a process is a child of the caller that the selector names.
fn is_match_at(table: &ProcessTable, caller: &Row, selector: Selector, pid: Pid) -> bool
    ensures { result ≡ passes (is_match caller.now selector) (row_of table.now pid) }
{
    match table.find(pid) {
        Some(row) => is_match(caller, selector, &row),
        None => false,
    }
}

fn has_match(table: &ProcessTable, caller: &Row, selector: Selector) -> bool
    ensures { result ≡ list_any (is_match caller.now selector) table.now }
{
    match table.children(caller.pid) {
        Some(pids) => pids
            .iter()
            .any(|pid| is_match_at(table, caller, selector, *pid)),
        None => table
            .rows()
            .iter()
            .any(|row| is_match(caller, selector, row)),
    }
}

pub fn wait_refusal(table: &ProcessTable, caller: &Row, selector: Selector) -> Option<Errno>
    ensures { result ≡ wait_refusal table.now caller.now selector }
{
    if has_match(table, caller, selector) {
        None
    } else {
        Some(Errno::ECHILD)
    }
}

fn asked_change(change: Option<WaitStatus>, stopped: bool, continued: bool) -> Option<WaitStatus>
    ensures { result ≡ asked_change change stopped continued }
{
    match change {
        Some(WaitStatus::Stopped(_)) if stopped => change,
        Some(WaitStatus::Continued) if continued => change,
        _ => None,
    }
}

/// What a child has to report: its end, or a change that is asked for. None where it has nothing to report.
pub fn report_of(child: &Row, stopped: bool, continued: bool) -> Option<WaitStatus>
    ensures { result ≡ report_of child.now.life child.now.change stopped continued }
{
    match child.life {
        Life::Ended(status) => Some(status),
        Life::Runs | Life::Stopped => asked_change(child.change, stopped, continued),
    }
}

/// Whether a row is that of a child of the caller that the selector names and that has something to report.
pub fn is_ready_match(
    caller: &Row,
    selector: Selector,
    stopped: bool,
    continued: bool,
    row: &Row,
) -> bool
    ensures { result ≡ is_ready_match caller.now selector stopped continued row.now }
{
    is_match(caller, selector, row) && report_of(row, stopped, continued).is_some()
}

/// Whether a process is a child of the caller that the selector names and that has something to report.
fn is_ready_match_at(
    table: &ProcessTable,
    caller: &Row,
    selector: Selector,
    stopped: bool,
    continued: bool,
    pid: Pid,
) -> bool
    ensures { result ≡ passes (is_ready_match caller.now selector stopped continued) (row_of table.now pid) }
{
    match table.find(pid) {
        Some(row) => is_ready_match(caller, selector, stopped, continued, &row),
        None => false,
    }
}

/// Whether there is a child of the caller that the selector names and that has something to report.
pub fn has_ready_match(
    table: &ProcessTable,
    caller: &Row,
    selector: Selector,
    stopped: bool,
    continued: bool,
) -> bool
    ensures { result ≡ list_any (is_ready_match caller.now selector stopped continued) table.now }
{
    match table.children(caller.pid) {
        Some(pids) => pids.iter().any(|pid| is_ready_match_at(
            table, caller, selector, stopped, continued, *pid,
        )),
        None => table.rows().iter().any(|row| is_ready_match(
            caller, selector, stopped, continued, row,
        )),
    }
}

fn is_same_status(status: WaitStatus, other: WaitStatus) -> bool
    ensures { result ≡ is_same_status status other }
{
    status == other
}

fn is_report(report: Option<WaitStatus>, status: WaitStatus) -> bool
    ensures { result ≡ is_report report status }
{
    match report {
        None => false,
        Some(report) => is_same_status(report, status),
    }
}

fn reports(
    caller: &Row,
    selector: Selector,
    stopped: bool,
    continued: bool,
    status: WaitStatus,
    row: Option<Row>,
) -> bool
    ensures { result ≡ reports caller.now selector stopped continued status row }
{
    match row {
        None => false,
        Some(row) => {
            is_match(caller, selector, &row)
                && is_report(report_of(&row, stopped, continued), status)
        }
    }
}

pub fn is_wait_answer(
    table: &ProcessTable,
    caller: &Row,
    selector: Selector,
    stopped: bool,
    continued: bool,
    reply: &Reply,
) -> bool
    ensures { result ≡ is_wait_answer table.now caller.now selector stopped continued reply.now }
{
    match *reply {
        Reply::Child(pid, status) => {
            let child = table.find(pid);
            reports(caller, selector, stopped, continued, status, child)
        }
        Reply::Again => !has_ready_match(table, caller, selector, stopped, continued),
        _ => false,
    }
}

pub fn wait(table: &mut ProcessTable, reply: &Reply)
    ensures { table.new ≡ after_wait table.old reply.now }
{
    if let Reply::Child(pid, _) = *reply {
        table.remove_ended(pid);
        table.change_row(pid, &Change::Reported);
    }
}
