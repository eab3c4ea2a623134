// What the counts of groups will be told from once the process has ended, told while no record has changed.
ghost use Rattle.std.specs.Prelude.{◌≡◌};
ghost use Rattle.std.specs.Option.{option_copied};
ghost use Rattle.list_laws.specs.Keyed.{option_filter};
ghost use Rattle.record_bag.specs.Bags.{vproc_in};
ghost use Rattle.decide_law.specs.Counts.{passes, is_outside, is_link_to, is_stopped_to, count_passing};
ghost use Rattle.ops_ending.specs.MethodEnding.{stays, left_by, later_by};

use crate::left_vprocs::{End, goes, is_child, is_itself};
use process_table::is_stopped;
use record_bag::Bag;
use unix_names::{Life, Pid, is_living};
use vproc_record::Vproc;

fn later_parent(end: End, v: &Vproc) -> Pid
    ensures { result ≡ (left_by end v.now).parent }
{
    if is_child(end, v) { Pid(1) } else { v.parent }
}

fn later_life(end: End, v: &Vproc) -> Life
    ensures { result ≡ (left_by end v.now).life }
{
    if is_itself(end, v) {
        Life::Ended(end.status)
    } else {
        v.life
    }
}

// The record of a process, where it stays.
fn staying(bag: &Bag, end: End, pid: Pid) -> Option<&Vproc>
    ensures { option_copied result ≡ option_filter (stays end) (vproc_in bag.now pid) }
{
    match bag.vproc(pid) {
        Some(v) if !goes(end, v) => Some(v),
        _ => None,
    }
}

fn is_outside(end: End, v: &Vproc, parent: &Vproc) -> bool
    ensures { result ≡ is_outside (left_by end v.now) (left_by end parent.now) }
{
    parent.group != v.group && parent.session == v.session
}

fn has_outside_parent(bag: &Bag, end: End, v: &Vproc) -> bool
    ensures { result ≡ passes (is_outside (left_by end v.now)) (vproc_in (later_by bag.now end) (left_by end v.now).parent) }
{
    match staying(bag, end, later_parent(end, v)) {
        None => false,
        Some(parent) => is_outside(end, v, parent),
    }
}

fn is_link_to(bag: &Bag, end: End, id: Pid, v: &Vproc) -> bool
    ensures { result ≡ is_link_to (later_by bag.now end) id (left_by end v.now) }
{
    v.group == id && is_living(later_life(end, v)) && has_outside_parent(bag, end, v)
}

fn is_link_at(bag: &Bag, end: End, id: Pid, q: Pid) -> bool
    ensures { result ≡ passes (is_link_to (later_by bag.now end) id) (vproc_in (later_by bag.now end) q) }
{
    match staying(bag, end, q) {
        None => false,
        Some(v) => is_link_to(bag, end, id, v),
    }
}

fn is_stopped_to(end: End, id: Pid, v: &Vproc) -> bool
    ensures { result ≡ is_stopped_to id (left_by end v.now) }
{
    v.group == id && is_stopped(later_life(end, v))
}

fn is_stopped_at(bag: &Bag, end: End, id: Pid, q: Pid) -> bool
    ensures { result ≡ passes (is_stopped_to id) (vproc_in (later_by bag.now end) q) }
{
    match staying(bag, end, q) {
        None => false,
        Some(v) => is_stopped_to(end, id, v),
    }
}

/// How many of these processes will keep the group from being orphaned. It takes no memory.
pub fn count_later_links(bag: &Bag, end: End, id: Pid, near: &[Pid]) -> usize
    ensures { result ≡ count_passing (later_by bag.now end) (is_link_to (later_by bag.now end) id) near.now }
{
    near.iter()
        .filter(|q| is_link_at(bag, end, id, **q))
        .count()
}

/// How many of these processes will be stopped members of the group. It takes no memory.
pub fn count_later_stopped(bag: &Bag, end: End, id: Pid, near: &[Pid]) -> usize
    ensures { result ≡ count_passing (later_by bag.now end) (is_stopped_to id) near.now }
{
    near.iter()
        .filter(|q| is_stopped_at(bag, end, id, **q))
        .count()
}
