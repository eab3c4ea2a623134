// Entries in rising order of process id.
ghost use Rattle.std.specs.Prelude.{◌≡◌, ◌<◌, ◌∷◌, [], IfOk, IfErr, IfSome, IfNone, OnOk, OnErr, IsSome, IsOk, None, Some, length, slice_index_or, slice_set};
ghost use Rattle.std.specs.List.{last_or};
ghost use Rattle.ordered_table.specs.Entries.{value_at, with_value, without, pids_of, AllUpTo, AllAbove, IsRising, IsReplacedAt};
ghost use Rattle.ordered_table.specs.MethodPlaces.{place, IsFoundAt, IsVacantAt};

use std::alloc::AllocFailed;
use std::mem;
use unix_names::Pid;

/// A value with the process id that it belongs to.
#[derive(Debug, Drop)]
pub struct Entry<T> {
    pub pid: Pid,
    pub value: T,
}

/// How many of the entries have a lesser id.
fn place<T>(entries: &[Entry<T>], pid: Pid) -> usize
    requires { IsRising entries.now }
    ensures { result ≡ place entries.now pid }
{
    entries.partition_point(|e| e.pid.0 < pid.0)
}

// The place, if the entry there is the id's.
fn checked_place<T>(entries: &[Entry<T>], pid: Pid, at: usize) -> Option<usize>
    requires { IsRising entries.now }
    ensures { IfSome result (IsFoundAt entries.now pid) }
{
    let entry = entries.get(at)?;
    if entry.pid.0 == pid.0 { Some(at) } else { None }
}

// The place that is the id's if each id from the first entry's on has an entry.
fn place_from_first<T>(entries: &[Entry<T>], pid: Pid) -> Option<usize>
    requires { IsRising entries.now }
    ensures { IfSome result (IsFoundAt entries.now pid) }
{
    let first = entries.first()?;
    let above = pid.0.checked_sub(first.pid.0)?;
    checked_place(entries, pid, above as usize)
}

// The place that is the id's if each id up to the last entry's has an entry.
fn place_from_last<T>(entries: &[Entry<T>], pid: Pid) -> Option<usize>
    requires { IsRising entries.now }
    ensures { IfSome result (IsFoundAt entries.now pid) }
{
    let last = entries.last()?;
    let below = last.pid.0.checked_sub(pid.0)?;
    let at = (entries.len() - 1).checked_sub(below as usize)?;
    checked_place(entries, pid, at)
}

// The id's place, where there are no ids without an entry between it and the first or the last, as mostly.
fn guess<T>(entries: &[Entry<T>], pid: Pid) -> Option<usize>
    requires { IsRising entries.now }
    ensures { IfSome result (IsFoundAt entries.now pid) }
{
    match place_from_first(entries, pid) {
        None => place_from_last(entries, pid),
        found => found,
    }
}

/// Where the id's entry stands, or where it would stand.
pub fn search<T>(entries: &[Entry<T>], pid: Pid) -> Result<usize, usize>
    requires { IsRising entries.now }
    ensures found { IfOk result (IsFoundAt entries.now pid) }
    ensures vacant { IfErr result (IsVacantAt entries.now pid) }
{
    match guess(entries, pid) {
        Some(at) => Ok(at),
        None => search_all(entries, pid),
    }
}

fn search_all<T>(entries: &[Entry<T>], pid: Pid) -> Result<usize, usize>
    requires { IsRising entries.now }
    ensures found { IfOk result (IsFoundAt entries.now pid) }
    ensures vacant { IfErr result (IsVacantAt entries.now pid) }
{
    let at = place(entries, pid);
    if at < entries.len() && entries[at].pid.0 == pid.0 {
        Ok(at)
    } else {
        Err(at)
    }
}

/// The greatest id among the entries.
pub fn greatest<T>(entries: &[Entry<T>]) -> Option<Pid>
    requires { IsRising entries.now }
    ensures last { result ≡ last_or None (pids_of entries.now) }
    ensures greatest { IfSome result (λ p. AllUpTo p entries.now) }
{
    let count = entries.len();
    if count == 0 {
        return None;
    }
    Some(entries[count - 1].pid)
}

/// Puts an entry in the place of another, and gives that one.
pub fn replace_at<T>(entries: &mut Vec<Entry<T>>, at: usize, entry: Entry<T>) -> Entry<T>
    requires { at < length entries.old.items }
    ensures old { (d : _) → slice_index_or entries.old.items at d ≡ result }
    ensures new { entries.new.items ≡ slice_set entries.old.items at entry }
{
    mem::replace(&mut entries[at], entry)
}

/// Gives the id a value, and returns the one that it had. Where it had one, no memory is taken.
pub fn put<T>(entries: &mut Vec<Entry<T>>, pid: Pid, value: T) -> Result<Option<T>, T>
    requires { IsRising entries.old.items }
    ensures before { IfOk result (λ old. old ≡ value_at entries.old.items pid) }
    ensures ok { OnOk result (entries.new.items ≡ with_value entries.old.items pid value) }
    ensures back { IfErr result (λ v. v ≡ value) }
    ensures err { OnErr result (entries.new.items ≡ entries.old.items) }
    ensures known { IsSome (value_at entries.old.items pid) → IsOk result }
{
    match search(entries.as_slice(), pid) {
        Ok(at) => Ok(Some(replace_value_at(entries, at, value))),
        Err(at) => match entries.insert(at, Entry { pid, value }) {
            Ok(()) => Ok(None),
            Err(refused) => {
                let AllocFailed { value: entry } = refused;
                let Entry { pid: _, value } = entry;
                Err(value)
            }
        },
    }
}

/// Takes the id's value out.
pub fn remove<T>(entries: &mut Vec<Entry<T>>, pid: Pid) -> Option<T>
    requires { IsRising entries.old.items }
    ensures value { result ≡ value_at entries.old.items pid }
    ensures rest { entries.new.items ≡ without entries.old.items pid }
{
    match search(entries.as_slice(), pid) {
        Ok(at) => {
            let Entry { pid: _, value } = entries.remove(at);
            Some(value)
        }
        Err(_) => None,
    }
}

/// Gives an id that has a value another one, and returns the old one.
pub fn replace<T>(entries: &mut Vec<Entry<T>>, pid: Pid, value: T) -> T
    requires rising { IsRising entries.old.items }
    requires known { IsSome (value_at entries.old.items pid) }
    ensures before { value_at entries.old.items pid ≡ Some result }
    ensures after { entries.new.items ≡ with_value entries.old.items pid value }
{
    match search(entries.as_slice(), pid) {
        Ok(at) => replace_value_at(entries, at, value),
        Err(_) => unreachable!(),
    }
}

/// Gives the id at a place another value, and returns the old one.
pub fn replace_value_at<T>(entries: &mut Vec<Entry<T>>, at: usize, value: T) -> T
    requires { at < length entries.old.items }
    ensures { IsReplacedAt at entries.old.items entries.new.items result value }
{
    let entry = &mut entries[at];
    mem::replace(&mut entry.value, value)
}

/// Takes the first entry out.
pub fn pop_first<T>(entries: &mut Vec<Entry<T>>) -> Option<Entry<T>>
    requires { IsRising entries.old.items }
    ensures some { IfSome result (λ e. entries.old.items ≡ e ∷ entries.new.items) }
    ensures none { IfNone result (entries.old.items ≡ []) }
    ensures none_new { IfNone result (entries.new.items ≡ []) }
    ensures least { IfSome result (λ e. AllAbove e.pid entries.new.items) }
{
    if entries.is_empty() {
        None
    } else {
        Some(entries.remove(0))
    }
}
