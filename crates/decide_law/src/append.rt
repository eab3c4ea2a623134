// A signal more in the log of a group, which may be the caller's own, as the caller is settled.
ghost use Rattle.std.specs.Prelude.{◌≡◌, ◌≤◌, length, None, Some, IsSome, All, IfOk, OnOk, OnErr};
ghost use Rattle.std.specs.Option.{option_map};
ghost use Rattle.ordered_table.specs.Entries.{IsRising};
ghost use Rattle.vproc_record.specs.declared.Vproc.{Vproc as TheVproc};
ghost use Rattle.group_record.specs.declared.Group.{Group as TheGroup};
ghost use Rattle.decide_law.specs.Agrees.{vproc_at, group_at};
ghost use Rattle.decide_law.specs.Base.{HasBase};
ghost use Rattle.decide_law.specs.Effects.{only, changed, same, folded, emptied, told_to, settled_in};
ghost use Rattle.decide_law.specs.MethodAppend.{begun};

use group_record::LogEntry;
use record_bag::{Bag, record_mut};
use sig_stream::fold_all;
use signal_state::Own;
use unix_names::{NoMemory, Pid};
use vproc_record::Vproc;

fn groups_rise(bag: &Bag)
    ensures { IsRising bag.now.groups }
{
    let _groups = bag.groups.as_slice();
}

// Puts an entry at the end of the log of a group, where the group is present. After NoMemory the bag is as before.
fn append_in(id: Pid, entry: LogEntry, bag: &mut Bag) -> Result<(), NoMemory>
    requires { IsSome (group_at bag.old id) }
    ensures ok { OnOk result (bag.new ≡ changed same (only id (option_map (told_to entry))) bag.old) }
    ensures err { OnErr result (bag.new ≡ bag.old) }
{
    match record_mut(&mut bag.groups, id) {
        Some(g) => g.append(entry.signal, entry.target, entry.allow),
        None => Ok(()),
    }
}

fn empty(v: &mut Vproc)
    ensures { v.new ≡ emptied v.old }
{
    v.backlog.clear();
}

// The process has taken what was in its backlog.
fn empty_backlog(pid: Pid, bag: &mut Bag)
    requires { IsSome (vproc_at bag.old pid) }
    ensures bag { bag.new ≡ changed (only pid (option_map emptied)) same bag.old }
    ensures groups { bag.new.groups ≡ bag.old.groups }
{
    if let Some(v) = record_mut(&mut bag.vprocs, pid) {
        empty(v);
    }
}

// The process has taken what its group's log had for it up to this place.
pub(crate) fn begin_in(id: Pid, end: u64, pid: Pid, bag: &mut Bag)
    requires { IsSome (group_at bag.old id) }
    ensures bag { bag.new ≡ changed same (only id (option_map (begun end pid))) bag.old }
    ensures vprocs { bag.new.vprocs ≡ bag.old.vprocs }
{
    if let Some(g) = record_mut(&mut bag.groups, id) {
        g.begin_at(end, pid);
    }
}

// The process takes in its tail. Answers its group, and where the log of that ends.
fn fold_in(own: &mut Own, pid: Pid, bag: &Bag) -> (Pid, u64)
    requires { HasBase own.old pid bag.now }
    ensures { (v : TheVproc) (g : TheGroup) → vproc_at bag.now pid ≡ Some (Some v) → group_at bag.now v.group ≡ Some (Some g) → (own.new ≡ folded own.old v g) × (result.0 ≡ v.group) × (result.1 ≡ length g.log) }
{
    let Some(v) = bag.vproc(pid) else {
        unreachable!();
    };
    let Some(g) = bag.group(v.group) else {
        unreachable!();
    };
    fold_all(own, v, g);
    (v.group, g.log.len() as u64)
}

/// The process takes in its tail and is settled, and then an entry is put at the end of the log of a group, which may be its own. Answers the process's group, which is there.
///
/// # Errors
/// NoMemory where there is no room for the entry; the bag is as before, and so are the process's signals.
pub fn settle_and_append(
    own: &mut Own,
    pid: Pid,
    id: Pid,
    entry: LogEntry,
    bag: &mut Bag,
) -> Result<Pid, NoMemory>
    requires base { HasBase own.old pid bag.old }
    requires target { IsSome (group_at bag.old id) }
    ensures group { (v : TheVproc) → vproc_at bag.old pid ≡ Some (Some v) → IfOk result (λ group. group ≡ v.group) }
    ensures own { (v : TheVproc) (g : TheGroup) → vproc_at bag.old pid ≡ Some (Some v) → group_at bag.old v.group ≡ Some (Some g) → OnOk result (own.new ≡ folded own.old v g) }
    ensures bag { (v : TheVproc) → vproc_at bag.old pid ≡ Some (Some v) → OnOk result (bag.new ≡ changed same (only id (option_map (told_to entry))) (settled_in pid v.group bag.old)) }
    ensures held { IfOk result (λ group. IsSome (group_at bag.new group)) }
    ensures within { IfOk result (λ group. (g : TheGroup) → group_at bag.new group ≡ Some (Some g) → All (λ m. m.from ≤ length g.log) g.members) }
    ensures own_err { OnErr result (own.new ≡ own.old) }
    ensures err { OnErr result (bag.new ≡ bag.old) }
{
    groups_rise(bag);
    let mut carried = *own;
    let (group, end) = fold_in(&mut carried, pid, bag);
    append_in(id, entry, bag)?;
    empty_backlog(pid, bag);
    begin_in(group, end, pid, bag);
    *own = carried;
    Ok(group)
}
