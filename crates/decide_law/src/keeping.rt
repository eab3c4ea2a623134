// A process is settled, and what was taken from it can be given back.
ghost use Rattle.std.specs.Prelude.{◌≡◌, ◌≤◌, length, Some, IsSome, All};
ghost use Rattle.std.specs.Option.{option_map};
ghost use Rattle.list_laws.specs.Keyed.{Distinct};
ghost use Rattle.vproc_record.specs.declared.Vproc.{Vproc as TheVproc};
ghost use Rattle.group_record.specs.declared.Group.{Group as TheGroup};
ghost use Rattle.group_record.specs.Groups.{settled};
ghost use Rattle.group_record.specs.Members.{member_number, from_of};
ghost use Rattle.sig_stream.specs.Streams.{stream};
ghost use Rattle.ordered_table.specs.Entries.{IsRising};
ghost use Rattle.record_bag.specs.declared.bag.Bag.{Bag as TheBag};
ghost use Rattle.decide_law.specs.Agrees.{vproc_at, group_at};
ghost use Rattle.decide_law.specs.Base.{HasBase};
ghost use Rattle.decide_law.specs.Effects.{only, changed, same, folded, emptied, settled_in};
ghost use Rattle.decide_law.specs.Kept.{kept_of, IsKeptFrom};
ghost use Rattle.decide_law.specs.MethodKept.{backlogged};

use crate::append::begin_in;
use crate::rounds::both_rise;
use group_record::Group;
use record_bag::{Bag, record_mut};
use sig_stream::fold_tail;
use signal_state::Own;
use std::alloc::Global;
use std::mem;
use unix_names::{Pid, Seq, Signal};
use vproc_record::Vproc;

/// What settling took from a process: its backlog, and where its part of its group's log began.
#[derive(Debug, Drop)]
pub struct Kept {
    pub group: Pid,
    pub backlog: Seq<Signal>,
    pub from: u64,
}

fn from_of(g: &Group, pid: Pid) -> u64
    ensures { result ≡ from_of g.now.members pid }
{
    match g.member_of(pid) {
        None => 0,
        Some(m) => m.from,
    }
}

// The process takes in its tail, and is settled.
fn take_out(alloc: Global, own: &mut Own, v: &mut Vproc, g: &mut Group) -> Kept
    requires { own.old.taken ≤ length (stream v.old g.old) }
    ensures own { own.new ≡ folded own.old v.old g.old }
    ensures vproc { v.new ≡ emptied v.old }
    ensures group { g.new ≡ settled g.old v.old.pid }
    ensures kept { result ≡ kept_of v.old.pid v.old g.old }
{
    fold_tail(own, v, g);
    own.taken = 0;
    let from = from_of(g, v.pid);
    g.settle(v.pid);
    Kept {
        group: v.group,
        backlog: mem::replace(&mut v.backlog, Seq::new(alloc)),
        from,
    }
}

/// The process takes in its tail, and is settled. Answers what was taken from it. It takes no memory.
pub fn settle_keeping(alloc: Global, own: &mut Own, pid: Pid, bag: &mut Bag) -> Kept
    requires base { HasBase own.old pid bag.old }
    ensures group { (v : TheVproc) → vproc_at bag.old pid ≡ Some (Some v) → result.group ≡ v.group }
    ensures own { (v : TheVproc) (g : TheGroup) → vproc_at bag.old pid ≡ Some (Some v) → group_at bag.old v.group ≡ Some (Some g) → own.new ≡ folded own.old v g }
    ensures bag { (v : TheVproc) → vproc_at bag.old pid ≡ Some (Some v) → bag.new ≡ settled_in pid v.group bag.old }
    ensures vproc { IsSome (vproc_at bag.new pid) }
    ensures held { IsSome (group_at bag.new result.group) }
    ensures within { (g : TheGroup) → group_at bag.new result.group ≡ Some (Some g) → All (λ m. m.from ≤ length g.log) g.members }

    // Where the group lists each member once, it can be given back.
    ensures kept { (v : TheVproc) (g : TheGroup) → vproc_at bag.old pid ≡ Some (Some v) → group_at bag.old v.group ≡ Some (Some g) → Distinct member_number g.members → IsKeptFrom bag.old pid result }
{
    let Some(v) = record_mut(&mut bag.vprocs, pid) else {
        unreachable!();
    };
    let Some(g) = record_mut(&mut bag.groups, v.group) else {
        unreachable!();
    };
    take_out(alloc, own, v, g)
}

fn fill(v: &mut Vproc, backlog: Seq<Signal>)
    ensures { v.new ≡ backlogged backlog v.old }
{
    v.backlog = backlog;
}

// The process has this backlog.
fn fill_backlog(pid: Pid, backlog: Seq<Signal>, bag: &mut Bag)
    requires { IsSome (vproc_at bag.old pid) }
    ensures bag { bag.new ≡ changed (only pid (option_map (backlogged backlog))) same bag.old }
    ensures groups { bag.new.groups ≡ bag.old.groups }
{
    if let Some(v) = record_mut(&mut bag.vprocs, pid) {
        fill(v, backlog);
    }
}

/// Gives back what settling took from a process: a bag that is as it was settled becomes what it was before. It takes no memory.
pub fn unsettle(pid: Pid, kept: Kept, bag: &mut Bag)
    requires vproc { IsSome (vproc_at bag.old pid) }
    requires held { IsSome (group_at bag.old kept.group) }
    ensures { (before : TheBag) → IsKeptFrom before pid kept → bag.old ≡ settled_in pid kept.group before → bag.new ≡ before }
{
    both_rise(bag);
    let Kept {
        group,
        backlog,
        from,
    } = kept;
    fill_backlog(pid, backlog, bag);
    begin_in(group, from, pid, bag);
}
