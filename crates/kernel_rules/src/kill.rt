// kill.
ghost use Rattle.std.specs.Prelude.{◌≡◌, ◌∷◌, [], ◌<◌, Some, length, slice_index_or, slice_set};
ghost use Rattle.std.specs.List.{list_any};
ghost use Rattle.process_table.specs.Changes.{receives, received};
ghost use Rattle.kernel_rules.specs.Kill.{is_sendable, is_named, is_permitted, is_nobody, is_system, is_forbidden, kill_refusal, sent_by_kill, after_kill};

use crate::permission::may;
use process_table::{ProcessTable, Row};
use unix_calls::{Reply, Target};
use unix_names::{Errno, SYSTEM, Signal, signal_of};

fn is_sendable(signal: u32) -> bool
    ensures { result ≡ is_sendable signal }
{
    signal == 0 || signal_of(signal).is_some()
}

fn is_named(caller: &Row, target: Target, row: &Row) -> bool
    ensures { result ≡ is_named caller.now target row.now }
{
    match target {
        Target::OwnGroup => row.group == caller.group,
        Target::One(pid) => row.pid == pid,
        Target::InGroup(group) => row.group == group,
    }
}

/// Whether the target names a row that the caller may signal.
pub fn is_permitted(caller: &Row, target: Target, signal: u32, row: &Row) -> bool
    ensures { result ≡ is_permitted caller.now target signal row.now }
{
    is_named(caller, target, row) && may(caller, row, signal)
}

fn names_any(rows: &[Row], caller: &Row, target: Target) -> bool
    ensures { result ≡ list_any (is_named caller.now target) rows.now }
{
    rows.iter().any(|row| is_named(caller, target, row))
}

fn permits_any(rows: &[Row], caller: &Row, target: Target, signal: u32) -> bool
    ensures { result ≡ list_any (is_permitted caller.now target signal) rows.now }
{
    rows.iter()
        .any(|row| is_permitted(caller, target, signal, row))
}

fn is_nobody(rows: &[Row], caller: &Row, target: Target) -> bool
    ensures { result ≡ is_nobody rows.now caller.now target }
{
    match target {
        Target::OwnGroup => false,
        Target::One(_) | Target::InGroup(_) => !names_any(rows, caller, target),
    }
}

fn is_forbidden(rows: &[Row], caller: &Row, target: Target, signal: u32) -> bool
    ensures { result ≡ is_forbidden rows.now caller.now target signal }
{
    names_any(rows, caller, target) && !permits_any(rows, caller, target, signal)
}

pub fn kill_refusal(rows: &[Row], caller: &Row, target: Target, signal: u32) -> Option<Errno>
    ensures { result ≡ kill_refusal rows.now caller.now target signal }
{
    if !is_sendable(signal) {
        Some(Errno::EINVAL)
    } else if target == Target::One(SYSTEM) {
        Some(Errno::EPERM)
    } else if is_nobody(rows, caller, target) {
        Some(Errno::ESRCH)
    } else if is_forbidden(rows, caller, target, signal) {
        Some(Errno::EPERM)
    } else {
        None
    }
}

/// Generates a signal for the row at a place, if a kill reaches it.
fn reach(
    table: &mut ProcessTable,
    at: usize,
    caller: &Row,
    target: Target,
    number: u32,
    signal: Signal,
)
    requires { at < length table.old }
    ensures { (d : _) → table.new ≡ slice_set table.old at (receives (sent_by_kill caller.now target number (Some signal)) (slice_index_or table.old at d)) }
{
    if is_permitted(caller, target, number, &table.rows()[at]) {
        table.receive(at, &[signal]);
    }
}

/// Generates a signal for each living row that a kill reaches.
fn signal_targets(
    table: &mut ProcessTable,
    caller: &Row,
    target: Target,
    number: u32,
    signal: Signal,
)
    ensures { table.new ≡ received (sent_by_kill caller.now target number (Some signal)) table.old }
{
    for at in 0..table.rows().len() {
        reach(table, at, caller, target, number, signal);
    }
}

pub fn kill(table: &mut ProcessTable, caller: &Row, target: Target, number: u32, reply: &Reply)
    ensures { table.new ≡ after_kill table.old caller.now target number reply.now }
{
    if let Reply::Fine = *reply {
        if let Some(signal) = signal_of(number) {
            signal_targets(table, caller, target, number, signal);
        }
    }
}
