// What a waitpid writes: a change that has been reported is forgotten, and a child whose end has been reported is taken.
ghost use Rattle.std.specs.Prelude.{◌≡◌, Some, None, IsSome};
ghost use Rattle.std.specs.Option.{option_map};
ghost use Rattle.vproc_record.specs.Vprocs.{without_child};
ghost use Rattle.group_record.specs.declared.Group.{Group as TheGroup};
ghost use Rattle.ordered_table.specs.Entries.{with_each, IsRising};
ghost use Rattle.decide_law.specs.Agrees.{vproc_at, group_at};
ghost use Rattle.decide_law.specs.Effects.{only, changed, unless_empty};
ghost use Rattle.ops_exit_wait.specs.Waitpid.{reported, leaves, taken_vproc};
ghost use Rattle.ops_exit_wait.specs.MethodWaitpid.{CanTell, vprocs_by, groups_by};

use crate::findings::Found;
use group_record::Group;
use record_bag::{Bag, record_mut};
use unix_names::Pid;
use vproc_record::Vproc;

fn both_rise(bag: &Bag)
    ensures vprocs { IsRising bag.now.vprocs }
    ensures groups { IsRising bag.now.groups }
{
    let _vprocs = bag.vprocs.as_slice();
    let _groups = bag.groups.as_slice();
}

// A group without members is absent.
fn unless_empty(g: Group) -> Option<Group>
    ensures { result ≡ unless_empty g }
{
    if g.is_empty() { None } else { Some(g) }
}

fn clear_change(v: &mut Vproc)
    ensures { v.new ≡ reported v.old }
{
    v.change = None;
}

// The change of a process has been reported.
fn forget_change(pid: Pid, bag: &mut Bag)
    requires { IsSome (vproc_at bag.old pid) }
    ensures { bag.new ≡ record bag.old { vprocs = with_each (only pid (option_map reported)) bag.old.vprocs } }
{
    if let Some(v) = record_mut(&mut bag.vprocs, pid) {
        clear_change(v);
    }
}

// The process has one child less.
fn drop_child(pid: Pid, child: Pid, bag: &mut Bag)
    requires { IsSome (vproc_at bag.old pid) }
    ensures { bag.new ≡ record bag.old { vprocs = with_each (only pid (option_map (λ v. without_child v child))) bag.old.vprocs } }
{
    if let Some(v) = record_mut(&mut bag.vprocs, pid) {
        v.drop_child(child);
    }
}

// The process is gone.
fn forget(pid: Pid, bag: &mut Bag)
    requires { IsSome (vproc_at bag.old pid) }
    ensures { bag.new ≡ record bag.old { vprocs = with_each (only pid (λ x. None)) bag.old.vprocs } }
{
    both_rise(bag);
    bag.vprocs.replace(pid, None);
}

// The process is no longer a member.
fn leave(id: Pid, pid: Pid, bag: &mut Bag)
    requires { IsSome (group_at bag.old id) }
    ensures { bag.new ≡ record bag.old { groups = with_each (only id (leaves pid)) bag.old.groups } }
{
    both_rise(bag);
    if let Some(mut g) = bag.groups.replace(id, None) {
        g.leave(pid);
        bag.groups.replace(id, unless_empty(g));
    }
}

// The child is gone: from those that its parent has, from the processes, and from its group.
fn take_child(pid: Pid, child: Pid, group: Pid, bag: &mut Bag)
    requires parent { IsSome (vproc_at bag.old pid) }
    requires child { IsSome (vproc_at bag.old child) }
    requires group { IsSome (group_at bag.old group) }
    ensures { bag.new ≡ changed (taken_vproc pid child) (only group (leaves child)) bag.old }
{
    drop_child(pid, child, bag);
    forget(child, bag);
    leave(group, child, bag);
}

/// Writes what is found: a change is reported once, and a child that has ended is gone. It takes no memory.
pub fn tell(pid: Pid, finding: Found, bag: &mut Bag)
    requires { CanTell bag.old pid finding }
    ensures { bag.new ≡ changed (vprocs_by pid finding) (groups_by finding) bag.old }
{
    match finding {
        Found::NoChild => {}
        Found::Nothing => {}
        Found::Change { child, .. } => forget_change(child, bag),
        Found::End { child, group, .. } => take_child(pid, child, group, bag),
    }
}
