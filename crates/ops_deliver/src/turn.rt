// A process that stops or continues (POSIX.1-2017, XSH 2.4.3).
ghost use Rattle.std.specs.Prelude.{◌≡◌, ◌≤◌, ◌<◌, ◌==◌, ◌∷◌, [], length, None, Some, IsSome, IfSome, All, IfOk, OnOk, OnErr, if◌then◌else◌};
ghost use Rattle.std.specs.Option.{option_map};
ghost use Rattle.unix_names.specs.declared.Life.TheVariants as lives;
ghost use Rattle.unix_names.specs.declared.Signal.TheVariants.{Chld};
ghost use Rattle.unix_names.specs.declared.WaitStatus.TheVariants as statuses;
ghost use Rattle.unix_calls.specs.declared.Event.TheVariants as events;
ghost use Rattle.vproc_record.specs.declared.Vproc.{Vproc as TheVproc};
ghost use Rattle.group_record.specs.declared.Group.{Group as TheGroup};
ghost use Rattle.ordered_table.specs.Entries.{IsRising};
ghost use Rattle.process_table.specs.Rows.{is_stopped};
ghost use Rattle.record_bag.specs.Bags.{vproc_in, group_in};
ghost use Rattle.record_bag.specs.Decisions.{answered};
ghost use Rattle.decide_law.specs.Agrees.{vproc_at, group_at};
ghost use Rattle.decide_law.specs.Base.{HasBase};
ghost use Rattle.decide_law.specs.Effects.{only, same, changed, folded, settled_in, to_one};
ghost use Rattle.ops_deliver.specs.Events.{event_answer};
ghost use Rattle.ops_deliver.specs.Turn.{turned_vproc, turned_groups, stop_effect, continue_effect};
ghost use Rattle.ops_deliver.specs.MethodTurn.{telling, group_told, restopped, counting};

use crate::parent::{group_told, nudge_parent, parent_needs, parent_of};
use decide_law::{finish_with, is_none, settle_and_append, settle_in};
use group_record::{Allow, LogEntry};
use process_table::is_stopped;
use record_bag::{Bag, Outcome};
use signal_state::Own;
use std::alloc::Global;
use unix_calls::{Entry, Event, Phase};
use unix_names::{Life, NoMemory, Pid, Signal, WaitStatus};

// The names of a bag rise.
fn both_rise(bag: &Bag)
    ensures vprocs { IsRising bag.now.vprocs }
    ensures groups { IsRising bag.now.groups }
{
    let _vprocs = bag.vprocs.as_slice();
    let _groups = bag.groups.as_slice();
}

// The process takes in its tail and is settled, and its parent's group's log gets the parent's signal, where that is held.
fn settle_telling(own: &mut Own, pid: Pid, up: Pid, bag: &mut Bag) -> Result<Pid, NoMemory>
    requires { HasBase own.old pid bag.old }
    ensures group { (v : TheVproc) → vproc_at bag.old pid ≡ Some (Some v) → IfOk result (λ group. group ≡ v.group) }
    ensures own { (v : TheVproc) (g : TheGroup) → vproc_at bag.old pid ≡ Some (Some v) → group_at bag.old v.group ≡ Some (Some g) → OnOk result (own.new ≡ folded own.old v g) }
    ensures bag { (v : TheVproc) → vproc_at bag.old pid ≡ Some (Some v) → OnOk result (bag.new ≡ changed same (telling (group_told bag.old up) (to_one Chld up)) (settled_in pid v.group bag.old)) }
    ensures held { IfOk result (λ group. IsSome (group_at bag.new group)) }
    ensures within { IfOk result (λ group. (g : TheGroup) → group_at bag.new group ≡ Some (Some g) → All (λ m. m.from ≤ length g.log) g.members) }
    ensures err { OnErr result (bag.new ≡ bag.old) }
{
    match group_told(up, bag) {
        None => Ok(settle_in(own, pid, bag)),
        Some(id) => {
            let entry = LogEntry {
                signal: Signal::Chld,
                target: Some(up),
                allow: Allow::All,
            };
            settle_and_append(own, pid, id, entry, bag)
        }
    }
}

// The process has another life, and that to report.
fn turn_vproc(pid: Pid, life: Life, status: WaitStatus, bag: &mut Bag)
    requires { IsSome (vproc_at bag.old pid) }
    ensures bag { bag.new ≡ changed (only pid (option_map (turned_vproc life status))) same bag.old }
    ensures groups { bag.new.groups ≡ bag.old.groups }
{
    both_rise(bag);
    if let Some(mut v) = bag.vprocs.replace(pid, None) {
        v.life = life;
        v.change = Some(status);
        bag.vprocs.replace(pid, Some(v));
    }
}

fn one_more_or_less(count: u32, was: bool, now: bool) -> u32
    requires { count < 1000000 }
    ensures { result ≡ restopped count was now }
{
    let more = if now { count + 1 } else { count };
    if was { more.saturating_sub(1) } else { more }
}

// How many members of the process's group are stopped, once it has this life.
fn stopped_then(pid: Pid, life: Life, own: &Own, bag: &Bag) -> u32
    requires base { HasBase own.now pid bag.now }
    requires few { (v : TheVproc) (g : TheGroup) → vproc_at bag.now pid ≡ Some (Some v) → group_at bag.now v.group ≡ Some (Some g) → g.stopped < 1000000 }
    ensures { (v : TheVproc) (g : TheGroup) → vproc_at bag.now pid ≡ Some (Some v) → group_at bag.now v.group ≡ Some (Some g) → result ≡ restopped g.stopped (is_stopped v.life) (is_stopped life) }
{
    let Some(v) = bag.vproc(pid) else {
        unreachable!();
    };
    let Some(g) = bag.group(v.group) else {
        unreachable!();
    };
    one_more_or_less(g.stopped, is_stopped(v.life), is_stopped(life))
}

// The group has this count of stopped members.
fn count_in(id: Pid, stopped: u32, bag: &mut Bag)
    requires { IsSome (group_at bag.old id) }
    ensures bag { bag.new ≡ changed same (only id (option_map (counting stopped))) bag.old }
    ensures held { IsSome (group_at bag.new id) }
    ensures within { ((g : TheGroup) → group_at bag.old id ≡ Some (Some g) → All (λ m. m.from ≤ length g.log) g.members) → (g : TheGroup) → group_at bag.new id ≡ Some (Some g) → All (λ m. m.from ≤ length g.log) g.members }
{
    both_rise(bag);
    if let Some(mut g) = bag.groups.replace(id, None) {
        g.stopped = stopped;
        bag.groups.replace(id, Some(g));
    }
}

// The records once the process has this life: it is settled, its parent is told, and the stopped members of its group are counted. Answers the group.
fn turn_in(
    own: &mut Own,
    pid: Pid,
    life: Life,
    status: WaitStatus,
    bag: &mut Bag,
) -> Result<Pid, NoMemory>
    requires base { HasBase own.old pid bag.old }
    requires few { (v : TheVproc) (g : TheGroup) → vproc_at bag.old pid ≡ Some (Some v) → group_at bag.old v.group ≡ Some (Some g) → g.stopped < 1000000 }
    ensures group { (v : TheVproc) → vproc_at bag.old pid ≡ Some (Some v) → IfOk result (λ group. group ≡ v.group) }
    ensures own { (v : TheVproc) (g : TheGroup) → vproc_at bag.old pid ≡ Some (Some v) → group_at bag.old v.group ≡ Some (Some g) → OnOk result (own.new ≡ folded own.old v g) }
    ensures bag { (v : TheVproc) → vproc_at bag.old pid ≡ Some (Some v) → OnOk result (bag.new ≡ changed (only pid (option_map (turned_vproc life status))) (turned_groups (settled_in pid v.group bag.old) pid v.parent life status) (settled_in pid v.group bag.old)) }
    ensures held { IfOk result (λ group. IsSome (group_at bag.new group)) }
    ensures within { IfOk result (λ group. (g : TheGroup) → group_at bag.new group ≡ Some (Some g) → All (λ m. m.from ≤ length g.log) g.members) }
    ensures err { OnErr result (bag.new ≡ bag.old) }
{
    both_rise(bag);
    let up = parent_of(pid, own, bag);
    let stopped = stopped_then(pid, life, own, bag);
    let group = settle_telling(own, pid, up, bag)?;
    turn_vproc(pid, life, status, bag);
    count_in(group, stopped, bag);
    Ok(group)
}

/// A signal stops the process.
///
/// # Errors
/// NoMemory where there is no room for the names that are asked for, for the nudge or for the parent's signal; the bag is as before.
pub fn stop(
    alloc: Global,
    pid: Pid,
    signal: Signal,
    own: &Own,
    bag: &mut Bag,
) -> Result<Outcome, NoMemory>
    requires base { HasBase own.now pid bag.old }
    requires few { (v : TheVproc) (g : TheGroup) → vproc_at bag.old pid ≡ Some (Some v) → group_at bag.old v.group ≡ Some (Some g) → g.stopped < 1000000 }
    ensures answer { (v : TheVproc) (g : TheGroup) → vproc_at bag.old pid ≡ Some (Some v) → group_at bag.old v.group ≡ Some (Some g) → IfOk result (λ outcome. answered outcome bag.new ≡ event_answer (events.StoppedBy signal) (stop_effect signal) own.now bag.old pid v g) }
    ensures err { OnErr result (bag.new ≡ bag.old) }
{
    let names = parent_needs(alloc, pid, own, bag)?;
    if !is_none(&names) {
        return Ok(Outcome::Need(names));
    }
    let nudges = nudge_parent(alloc, parent_of(pid, own, bag))?;
    let mut own = *own;
    let group = turn_in(
        &mut own,
        pid,
        Life::Stopped,
        WaitStatus::Stopped(signal),
        bag,
    )?;
    own.sig.stop(signal);
    let entry = Entry::Happened {
        pid,
        event: Event::StoppedBy(signal),
    };
    Ok(finish_with(nudges, own, group, bag, Some(entry), Phase::Stopped))
}

/// The process continues.
///
/// # Errors
/// As those of `stop`.
pub fn go_on(alloc: Global, pid: Pid, own: &Own, bag: &mut Bag) -> Result<Outcome, NoMemory>
    requires base { HasBase own.now pid bag.old }
    requires few { (v : TheVproc) (g : TheGroup) → vproc_at bag.old pid ≡ Some (Some v) → group_at bag.old v.group ≡ Some (Some g) → g.stopped < 1000000 }
    ensures answer { (v : TheVproc) (g : TheGroup) → vproc_at bag.old pid ≡ Some (Some v) → group_at bag.old v.group ≡ Some (Some g) → IfOk result (λ outcome. answered outcome bag.new ≡ event_answer events.Continued continue_effect own.now bag.old pid v g) }
    ensures err { OnErr result (bag.new ≡ bag.old) }
{
    let names = parent_needs(alloc, pid, own, bag)?;
    if !is_none(&names) {
        return Ok(Outcome::Need(names));
    }
    let nudges = nudge_parent(alloc, parent_of(pid, own, bag))?;
    let mut own = *own;
    let group = turn_in(&mut own, pid, Life::Runs, WaitStatus::Continued, bag)?;
    own.sig.resume();
    let entry = Entry::Happened {
        pid,
        event: Event::Continued,
    };
    Ok(finish_with(nudges, own, group, bag, Some(entry), Phase::Ready))
}
