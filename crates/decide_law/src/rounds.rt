// What every decision does beside its own: the caller takes in its tail and is settled, and the group that it had is trimmed.
ghost use Rattle.std.specs.Prelude.{◌≡◌, ◌≤◌, length, [], None, Some, IsSome, All};
ghost use Rattle.record_bag.specs.declared.vector.Outcome.TheVariants.{Done};
ghost use Rattle.unix_names.specs.declared.Pid.{Pid as ThePid};
ghost use Rattle.vproc_record.specs.declared.Vproc.{Vproc as TheVproc};
ghost use Rattle.group_record.specs.declared.Group.{Group as TheGroup};
ghost use Rattle.ordered_table.specs.Entries.{IsRising};
ghost use Rattle.decide_law.specs.Agrees.{vproc_at, group_at};
ghost use Rattle.record_bag.specs.Decisions.{answered};
ghost use Rattle.decide_law.specs.Base.{HasBase};
ghost use Rattle.decide_law.specs.Effects.{folded, emptied, settled_in, trimmed_in, done_by, quiet};

use record_bag::{Bag, Decided, Outcome, record_mut};
use sig_stream::fold_and_settle;
use signal_state::Own;
use std::alloc::Global;
use unix_calls::{Entry, Phase};
use unix_names::{Pid, Seq};

// The names of a bag rise.
pub(crate) fn both_rise(bag: &Bag)
    ensures vprocs { IsRising bag.now.vprocs }
    ensures groups { IsRising bag.now.groups }
{
    let _vprocs = bag.vprocs.as_slice();
    let _groups = bag.groups.as_slice();
}

/// The process takes in its tail, and is settled. Answers its group, which is there. It takes no memory.
pub fn settle_in(own: &mut Own, pid: Pid, bag: &mut Bag) -> Pid
    requires base { HasBase own.old pid bag.old }
    ensures group { (v : TheVproc) → vproc_at bag.old pid ≡ Some (Some v) → result ≡ v.group }
    ensures own { (v : TheVproc) (g : TheGroup) → vproc_at bag.old pid ≡ Some (Some v) → group_at bag.old v.group ≡ Some (Some g) → own.new ≡ folded own.old v g }
    ensures bag { (v : TheVproc) → vproc_at bag.old pid ≡ Some (Some v) → bag.new ≡ settled_in pid v.group bag.old }
    ensures vproc { IsSome (vproc_at bag.new pid) }
    ensures held { IsSome (group_at bag.new result) }
    ensures within { (g : TheGroup) → group_at bag.new result ≡ Some (Some g) → All (λ m. m.from ≤ length g.log) g.members }
{
    let Some(v) = record_mut(&mut bag.vprocs, pid) else {
        unreachable!();
    };
    let id = v.group;
    let Some(g) = record_mut(&mut bag.groups, id) else {
        unreachable!();
    };
    fold_and_settle(own, v, g);
    id
}

/// The group is trimmed, where it is present. It takes no memory.
pub fn trim_in(id: Pid, bag: &mut Bag)
    requires held { IsSome (group_at bag.old id) }
    requires within { (g : TheGroup) → group_at bag.old id ≡ Some (Some g) → All (λ m. m.from ≤ length g.log) g.members }
    ensures { bag.new ≡ trimmed_in id bag.old }
{
    if let Some(g) = record_mut(&mut bag.groups, id) {
        g.trim();
    }
}

/// The answer of a decision that has written what it writes: the group that the caller had at the beginning is trimmed. It takes no memory.
pub fn finish(
    alloc: Global,
    own: Own,
    group: Pid,
    bag: &mut Bag,
    entry: Option<Entry>,
    phase: Phase,
) -> Outcome
    requires held { IsSome (group_at bag.old group) }
    requires within { (g : TheGroup) → group_at bag.old group ≡ Some (Some g) → All (λ m. m.from ≤ length g.log) g.members }
    ensures outcome { result ≡ Done (record { entry = entry; own = own; phase = phase; born = None; nudges = [] }) }
    ensures bag { bag.new ≡ trimmed_in group bag.old }
{
    trim_in(group, bag);
    Outcome::Done(Decided {
        entry,
        own,
        phase,
        born: None,
        nudges: Seq::new(alloc),
    })
}

/// The same of a decision that nudges these processes. It takes no memory.
pub fn finish_with(
    nudges: Seq<Pid>,
    own: Own,
    group: Pid,
    bag: &mut Bag,
    entry: Option<Entry>,
    phase: Phase,
) -> Outcome
    requires held { IsSome (group_at bag.old group) }
    requires within { (g : TheGroup) → group_at bag.old group ≡ Some (Some g) → All (λ m. m.from ≤ length g.log) g.members }
    ensures outcome { result ≡ Done (record { entry = entry; own = own; phase = phase; born = None; nudges = nudges }) }
    ensures bag { bag.new ≡ trimmed_in group bag.old }
{
    trim_in(group, bag);
    Outcome::Done(Decided {
        entry,
        own,
        phase,
        born: None,
        nudges,
    })
}

/// The answer of a decision that writes nothing: the process takes in its tail and is settled, and its group is trimmed. It takes no memory.
pub fn done_quiet(
    alloc: Global,
    own: Own,
    pid: Pid,
    bag: &mut Bag,
    entry: Option<Entry>,
    phase: Phase,
) -> Outcome
    requires base { HasBase own pid bag.old }
    ensures { (v : TheVproc) (g : TheGroup) → vproc_at bag.old pid ≡ Some (Some v) → group_at bag.old v.group ≡ Some (Some g) → answered result bag.new ≡ done_by pid v bag.old (quiet entry (folded own v g).sig phase) }
{
    let mut own = own;
    let group = settle_in(&mut own, pid, bag);
    trim_in(group, bag);
    Outcome::Done(Decided {
        entry,
        own,
        phase,
        born: None,
        nudges: Seq::new(alloc),
    })
}
