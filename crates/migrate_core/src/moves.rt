// Migrations and pushes.
ghost use Rattle.std.specs.Prelude.{◌≡◌, Some, IsSome};
ghost use Rattle.std.specs.Option.{option_map};
ghost use Rattle.unix_calls.specs.declared.Entry.TheVariants.{Called, Happened};
ghost use Rattle.unix_calls.specs.declared.Call.TheVariants.{Migrate};
ghost use Rattle.unix_calls.specs.declared.Reply.TheVariants.{Fine};
ghost use Rattle.unix_calls.specs.declared.Event.TheVariants.{Moved};
ghost use Rattle.vproc_record.specs.declared.Vproc.{Vproc as TheVproc};
ghost use Rattle.group_record.specs.declared.Group.{Group as TheGroup};
ghost use Rattle.ordered_table.specs.Entries.{IsRising};
ghost use Rattle.record_bag.specs.Bags.{vproc_in};
ghost use Rattle.record_bag.specs.Decisions.{answered};
ghost use Rattle.decide_law.specs.Agrees.{vproc_at, group_at};
ghost use Rattle.decide_law.specs.Arrivals.{done_at};
ghost use Rattle.decide_law.specs.Base.{HasBase};
ghost use Rattle.decide_law.specs.Effects.{only, same, changed, folded, done_by};
ghost use Rattle.decide_law.specs.Places.{named_or};
ghost use Rattle.migrate_core.specs.Moves.{placed, arrival, decide_migrate, decide_push};

use decide_law::{finish, settle_in};
use record_bag::{Bag, Outcome, Site};
use signal_state::Own;
use std::alloc::Global;
use unix_calls::{Call, Entry, Event, Phase, Reply};
use unix_names::{NodeId, Pid};

fn vprocs_rise(bag: &Bag)
    ensures { IsRising bag.now.vprocs }
{
    let _vprocs = bag.vprocs.as_slice();
}

// The process is at the site from now on.
fn place(pid: Pid, site: Site, bag: &mut Bag)
    requires { IsSome (vproc_at bag.old pid) }
    ensures bag { bag.new ≡ changed (only pid (option_map (placed site))) same bag.old }
    ensures groups { bag.new.groups ≡ bag.old.groups }
{
    vprocs_rise(bag);
    if let Some(mut v) = bag.vprocs.replace(pid, None) {
        v.loc = site.node;
        bag.vprocs.replace(pid, Some(v));
    }
}

// The process takes in its tail, is settled, and comes to the site.
fn arrive(alloc: Global, entry: Entry, pid: Pid, own: &Own, bag: &mut Bag, site: Site) -> Outcome
    requires { HasBase own.now pid bag.old }
    ensures { (v : TheVproc) (g : TheGroup) → vproc_at bag.old pid ≡ Some (Some v) → group_at bag.old v.group ≡ Some (Some g) → answered result bag.new ≡ done_by pid v bag.old (arrival entry (folded own.now v g).sig pid site) }
{
    let mut own = *own;
    let group = settle_in(&mut own, pid, bag);
    place(pid, site, bag);
    finish(alloc, own, group, bag, Some(entry), Phase::Ready)
}

// A job that is done at one node alone: there the process arrives, from elsewhere the question goes there.
fn arrive_at(
    alloc: Global,
    node: NodeId,
    entry: Entry,
    pid: Pid,
    own: &Own,
    bag: &mut Bag,
    site: Site,
) -> Outcome
    requires { HasBase own.now pid bag.old }
    ensures { (v : TheVproc) (g : TheGroup) → vproc_at bag.old pid ≡ Some (Some v) → group_at bag.old v.group ≡ Some (Some g) → answered result bag.new ≡ done_at node site pid v bag.old (arrival entry (folded own.now v g).sig pid site) }
{
    if node.0 == site.node.0 {
        arrive(alloc, entry, pid, own, bag, site)
    } else {
        Outcome::Away(node)
    }
}

// Where a process is whose record is held.
fn place_of(pid: Pid, bag: &Bag) -> NodeId
    requires { IsSome (vproc_in bag.now pid) }
    ensures { (v : TheVproc) → vproc_in bag.now pid ≡ Some v → result ≡ v.loc }
{
    match bag.vproc(pid) {
        Some(v) => v.loc,
        None => unreachable!(),
    }
}

fn named_or(named: Option<NodeId>, place: NodeId) -> NodeId
    ensures { result ≡ named_or named place }
{
    match named {
        None => place,
        Some(node) => node,
    }
}

/// Decides migrate: the caller goes on at the node that is named, or else where it is; asked elsewhere the answer is the way there. It takes no memory.
pub fn decide_migrate(
    alloc: Global,
    pid: Pid,
    at: Option<NodeId>,
    own: &Own,
    bag: &mut Bag,
    site: Site,
) -> Outcome
    requires { HasBase own.now pid bag.old }
    ensures { answered result bag.new ≡ decide_migrate at site pid own.now bag.old }
{
    let node = named_or(at, place_of(pid, bag));
    let entry = Entry::Called {
        caller: pid,
        call: Call::Migrate,
        reply: Reply::Fine,
    };
    arrive_at(alloc, node, entry, pid, own, bag, site)
}

/// Decides a push: the process goes on at this node; asked elsewhere the answer is the way there. It takes no memory.
pub fn decide_push(
    alloc: Global,
    pid: Pid,
    node: NodeId,
    own: &Own,
    bag: &mut Bag,
    site: Site,
) -> Outcome
    requires { HasBase own.now pid bag.old }
    ensures { answered result bag.new ≡ decide_push node site pid own.now bag.old }
{
    let entry = Entry::Happened {
        pid,
        event: Event::Moved,
    };
    arrive_at(alloc, node, entry, pid, own, bag, site)
}
