// The kernel: its table from the first one of a world on, step by step.
ghost use Rattle.std.specs.Prelude.{◌≡◌, ◌≢◌, [], IfOk, OnOk, OnErr};
ghost use Rattle.unix_calls.specs.Calls.{HasNames, EntryHasNames};
ghost use Rattle.kernel_model.specs.Step.{call_verdict, event_verdict, row_verdict, verdict_at, verdict, process_of, row_after, after};
ghost use Rattle.process_table.specs.Rows.{row_of};
ghost use Rattle.kernel_model.specs.Legal.{boot, booted, joined_row, first_row, row_with};

use crate::verdict::{Rule, Verdict};
use kernel_rules::{allows, call, can_call, happen, look_up, may_happen};
use process_table::{ProcessTable, Row};
use signal_state::Sig;
use std::alloc::Global;
use std::marker::Model;
use unix_calls::{Call, Entry, Event, Reply, Start, World};
use unix_names::{Life, NoMemory, Pid, SYSTEM, is_living};

/// The table of the one kernel, which contracts see as the list of its rows in order of creation.
#[derive(Debug, Drop)]
pub struct Kernel {
    table: ProcessTable,
}

impl Model for Kernel {
    ghost use Rattle.std.specs.Prelude.{List};
    ghost use Rattle.process_table.specs.declared.Row.{Row};

    ghost Value = { List Row };

    ghost view = { λ kernel. kernel.table };
}

/// The row of a start, whose earlier ones have these rows. It joins the group and session of one of them, or leads its own.
fn first_row(earlier: &[Row], start: &Start) -> Row
    ensures { result ≡ first_row earlier.now start.now }
{
    let joined = start.joined.and_then(|number| earlier.get(number));
    let (group, session) = match joined {
        None => (start.pid, start.pid),
        Some(row) => (row.group, row.session),
    };
    Row {
        pid: start.pid,
        parent: SYSTEM,
        group,
        session,
        uid: start.uid,
        life: Life::Runs,
        change: None,
        execed: false,
        sig: Sig::fresh(),
    }
}

fn boot_table(alloc: Global, starts: &[Start]) -> Result<ProcessTable, NoMemory>
    ensures { IfOk result (λ table. table ≡ booted [] starts.now) }
{
    let mut table = ProcessTable::new(alloc);
    for start in starts {
        let row = first_row(table.rows(), start);
        table.push(row)?;
    }
    Ok(table)
}

fn call_verdict(table: &ProcessTable, row: &Row, call: &Call, reply: &Reply) -> Verdict
    requires { HasNames call.now }
    ensures { result ≡ call_verdict table.now row.now call.now reply.now }
{
    if !can_call(row) {
        Verdict::Illegal(Rule::SignalFirst)
    } else if allows(table, row, call, reply) {
        Verdict::Legal
    } else {
        Verdict::Illegal(Rule::WrongReply)
    }
}

fn event_verdict(table: &ProcessTable, row: &Row, event: Event) -> Verdict
    ensures { result ≡ event_verdict table.now row.now event }
{
    if may_happen(table, row, event) {
        Verdict::Legal
    } else if let Event::Moved = event {
        Verdict::Illegal(Rule::SignalFirst)
    } else {
        Verdict::Illegal(Rule::WrongEvent)
    }
}

fn row_verdict(table: &ProcessTable, row: &Row, entry: &Entry) -> Verdict
    requires { EntryHasNames entry.now }
    ensures { result ≡ row_verdict table.now row.now entry.now }
{
    match entry {
        Entry::Called { call, reply, .. } => call_verdict(table, row, call, reply),
        Entry::Happened { event, .. } => event_verdict(table, row, *event),
    }
}

/// Changes the table as an entry says that is legal there.
fn take_step(table: &mut ProcessTable, row: &Row, entry: &Entry) -> Result<(), NoMemory>
    requires names { EntryHasNames entry.now }
    requires legal { verdict_at table.old (Some row.now) entry.now ≡ Verdict.Legal }
    ensures ok { OnOk result (table.new ≡ row_after table.old row.now entry.now) }
    ensures err { OnErr result (table.new ≡ table.old) }
{
    match entry {
        Entry::Called {
            call: asked,
            reply,
            ..
        } => call(table, row, asked, reply),
        Entry::Happened { event, .. } => happen(table, row, *event),
    }
}

/// The process that an entry speaks of.
pub fn process_of(entry: &Entry) -> Pid
    ensures { result ≡ process_of entry.now }
{
    match entry {
        Entry::Called { caller, .. } => *caller,
        Entry::Happened { pid, .. } => *pid,
    }
}

fn living_verdict(table: &ProcessTable, row: &Row, entry: &Entry) -> Verdict
    requires { EntryHasNames entry.now }
    ensures { result ≡ verdict_at table.now (Some row.now) entry.now }
{
    if is_living(row.life) {
        row_verdict(table, row, entry)
    } else {
        Verdict::Illegal(Rule::UnknownProcess)
    }
}

fn step_table(table: &mut ProcessTable, entry: &Entry) -> Result<Verdict, NoMemory>
    requires { EntryHasNames entry.now }
    ensures verdict { IfOk result (λ v. v ≡ verdict table.old entry.now) }
    ensures legal { result ≡ Ok Verdict.Legal → table.new ≡ after table.old entry.now }
    ensures illegal { result ≢ Ok Verdict.Legal → table.new ≡ table.old }
{
    let Some(row) = look_up(table, process_of(entry)) else {
        return Ok(Verdict::Illegal(Rule::UnknownProcess));
    };
    let verdict = living_verdict(table, &row, entry);
    if let Verdict::Legal = verdict {
        take_step(table, &row, entry)?;
    }
    Ok(verdict)
}

impl Kernel {
    /// The first table of a world: a row for each start, in their order. A start leads its own group and session, or has those of the earlier start that it joins.
    pub fn boot(alloc: Global, world: &World) -> Result<Kernel, NoMemory>
        ensures { IfOk result (λ kernel. kernel ≡ boot world.now) }
    {
        let table = boot_table(alloc, world.starts.as_slice())?;
        Ok(Kernel { table })
    }

    /// The rows in order of creation.
    pub fn rows(&self) -> &[Row]
        ensures { result.now ≡ self.now }
    {
        self.table.rows()
    }

    /// The table of processes.
    pub fn table(&self) -> &ProcessTable
        ensures { result.now ≡ self.now }
    {
        &self.table
    }

    /// The row of a process. It is looked up with `&mut`, since what is found out on the way is noted for later; the table stays.
    pub fn look(&mut self, pid: Pid) -> Option<Row>
        ensures row { result ≡ row_of self.old pid }
        ensures same { self.new ≡ self.old }
    {
        look_up(&mut self.table, pid)
    }

    /// Steps, if the entry is legal: the table is then the one after it. Otherwise the answer names the first rule that fails, and the table stays. It stays too where memory runs out.
    pub fn step(&mut self, entry: &Entry) -> Result<Verdict, NoMemory>
        requires { EntryHasNames entry.now }
        ensures verdict { IfOk result (λ v. v ≡ verdict self.old entry.now) }
        ensures legal { result ≡ Ok Verdict.Legal → self.new ≡ after self.old entry.now }
        ensures illegal { result ≢ Ok Verdict.Legal → self.new ≡ self.old }
    {
        step_table(&mut self.table, entry)
    }
}
