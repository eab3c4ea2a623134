// A caller is settled in two steps: its backlog is taken first, which can be given back, and its part of its group's log last.
ghost use Rattle.std.specs.Prelude.{◌≡◌, None, Some, IsSome, IfSome, IfNone};
ghost use Rattle.vproc_record.specs.declared.Vproc.{Vproc as TheVproc};
ghost use Rattle.ordered_table.specs.Entries.{IsRising, value_at, with_value};
ghost use Rattle.record_bag.specs.Bags.{present, vproc_in};
ghost use Rattle.record_bag.specs.declared.bag.Bag.{Bag as TheBag};
ghost use Rattle.ops_groups.specs.MethodMove.{backlog_taken, group_settled};

use group_record::Group;
use ordered_table::Table;
use record_bag::Bag;
use std::alloc::Global;
use std::mem;
use unix_names::{Pid, Seq, Signal};
use vproc_record::Vproc;

/// Who makes a call, and its group before that. The caller takes its whole stream, and its group tells of that last.
#[derive(Clone, Copy, Debug, PartialEq, Eq)]
pub struct Caller {
    pub pid: Pid,
    pub group: Pid,
}

/// The ids of a table of groups rise.
pub fn groups_rise(groups: &Table<Option<Group>>)
    ensures { IsRising groups.now }
{
    let _entries = groups.as_slice();
}

/// Takes the record of a process out, if it is there.
pub fn take_out(vprocs: &mut Table<Option<Vproc>>, pid: Pid) -> Option<Vproc>
    ensures rising { IsRising vprocs.old }
    ensures some { IfSome result (λ w. value_at vprocs.old pid ≡ Some (Some w)) }
    ensures out { IfSome result (λ w. vprocs.new ≡ with_value vprocs.old pid None) }
    ensures held { IfSome result (λ w. IsSome (value_at vprocs.new pid)) }
    ensures none { IfNone result (present (value_at vprocs.old pid) ≡ None) }
    ensures same { IfNone result (vprocs.new ≡ vprocs.old) }
{
    let _entries = vprocs.as_slice();
    if let Some(Some(_)) = vprocs.get(pid) {
        vprocs.replace(pid, None)
    } else {
        None
    }
}

/// Takes the backlog of a process. It takes no memory.
pub fn take_backlog(alloc: Global, pid: Pid, bag: &mut Bag) -> Seq<Signal>
    requires { IsSome (vproc_in bag.old pid) }
    ensures bag { bag.new ≡ backlog_taken pid bag.old }
    ensures given_back { (v : TheVproc) → vproc_in bag.old pid ≡ Some v → result ≡ v.backlog }
{
    let Some(mut v) = take_out(&mut bag.vprocs, pid) else {
        unreachable!();
    };
    let backlog = mem::replace(&mut v.backlog, Seq::new(alloc));
    bag.vprocs.replace(pid, Some(v));
    backlog
}

/// Gives a process back the backlog that was taken from it. It takes no memory.
pub fn give_back(pid: Pid, backlog: Seq<Signal>, bag: &mut Bag)
    ensures { (b : TheBag) (v : TheVproc) → vproc_in b pid ≡ Some v → backlog ≡ v.backlog → bag.old ≡ backlog_taken pid b → bag.new ≡ b }
{
    if let Some(mut v) = take_out(&mut bag.vprocs, pid) {
        v.backlog = backlog;
        bag.vprocs.replace(pid, Some(v));
    }
}

/// The caller has taken its part of its group's log. It takes no memory.
pub fn settle_group(by: Caller, bag: &mut Bag)
    ensures { bag.new ≡ group_settled by.pid by.group bag.old }
{
    groups_rise(&bag.groups);
    if !bag.groups.has(by.group) {
        return;
    }
    if let Some(mut g) = bag.groups.replace(by.group, None) {
        g.settle(by.pid);
        bag.groups.replace(by.group, Some(g));
    }
}
