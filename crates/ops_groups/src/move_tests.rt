// A child in its parent's group goes to a group of its own: 2, whose parent is the system process, and 3, its child. The user of 2 is 5, that of 3 is 7.
ghost use Rattle.std.specs.Prelude.{◌≡◌, ◌≤◌, All, IsTrue, length};
ghost use Rattle.unix_names.specs.declared.Pid.{Pid as ThePid};
ghost use Rattle.unix_calls.specs.Calls.{HasNames};
ghost use Rattle.record_bag.specs.Bags.{group_in};
ghost use Rattle.decide_law.specs.Base.{HasBase};
ghost use Rattle.ops_groups.specs.MethodMove.{IsMoveCall, IsCountedIn};

use crate::moves::decide_move;
use group_record::{Group, Member, Members};
use ordered_table::Entry as Entered;
use record_bag::{Bag, Held, Outcome};
use sig_stream::{is_listed, stream_len};
use signal_state::{Own, Sig};
use std::alloc::Global;
use std::test::Fail;
use unix_calls::{Call, Entry, Reply};
use unix_names::{Life, Name, NoMemory, NodeId, Pid, Seq};
use vproc_record::{Children, Vproc};

fn process(alloc: Global, pid: u32, parent: u32, uid: u32) -> Vproc {
    Vproc {
        pid: Pid(pid),
        parent: Pid(parent),
        group: Pid(2),
        session: Pid(2),
        uid,
        life: Life::Runs,
        change: None,
        execed: false,
        ignchld: false,
        loc: NodeId(0),
        children: Children::new(alloc),
        backlog: Seq::new(alloc),
    }
}

fn group(alloc: Global) -> Result<Group, NoMemory> {
    let mut members = Members::new(alloc);
    for (pid, uid) in [(2, 5), (3, 7)] {
        members.move_last(Member {
            pid: Pid(pid),
            from: 0,
            uid,
        })?;
    }
    Ok(Group {
        id: Pid(2),
        session: Pid(2),
        members,
        log: Seq::new(alloc),
        links: 0,
        stopped: 0,
    })
}

fn hold(bag: &mut Bag, name: Name, held: Held) -> Result<(), NoMemory> {
    match bag.put(name, held) {
        Ok(()) => Ok(()),
        Err(_) => Err(NoMemory),
    }
}

// Both records, their group, and that there is no group 3.
fn family(alloc: Global) -> Result<Bag, NoMemory> {
    let mut parent = process(alloc, 2, 1, 5);
    if parent.add_child(Pid(3)).is_err() {
        return Err(NoMemory);
    }
    let child = process(alloc, 3, 2, 7);
    let mut bag = Bag::new(alloc);
    hold(&mut bag, Name::V(Pid(2)), Held::V(Some(parent)))?;
    hold(&mut bag, Name::V(Pid(3)), Held::V(Some(child)))?;
    hold(&mut bag, Name::G(Pid(2)), Held::G(Some(group(alloc)?)))?;
    hold(&mut bag, Name::G(Pid(3)), Held::G(None))?;
    Ok(bag)
}

fn is_within(g: &Group) -> bool
    ensures { IsTrue result → All (λ m. m.from ≤ length g.now.log) g.now.members }
{
    let end = g.log.len() as u64;
    g.members.as_slice().iter().all(|m| m.from <= end)
}

fn has_base(pid: Pid, own: &Own, bag: &Bag) -> bool
    ensures { IsTrue result → HasBase own.now pid bag.now }
{
    let Some(v) = bag.vproc(pid) else {
        return false;
    };
    let Some(g) = bag.group(v.group) else {
        return false;
    };
    v.pid == pid && is_listed(v, g) && own.taken <= stream_len(v, g) && is_within(g)
}

fn is_counted(held: &Option<Group>) -> bool
    ensures { IsTrue result → IsCountedIn held.now }
{
    match held {
        None => true,
        Some(g) => g.links < 1_000_000 && g.stopped < 1_000_000,
    }
}

fn all_counted(groups: &[Entered<Option<Group>>]) -> bool
    ensures { IsTrue result → All (λ e. IsCountedIn e.value) groups.now }
{
    groups.iter().all(|e| is_counted(&e.value))
}

fn has_counts(bag: &Bag) -> bool
    ensures { IsTrue result → (id : ThePid) → IsCountedIn (group_in bag.now id) }
{
    all_counted(bag.groups.as_slice())
}

// What the records tell of the child and of both groups.
#[derive(Clone, Copy, Debug, PartialEq, Eq)]
struct Seen {
    group: Pid,
    session: Pid,
    new_session: Pid,
    new_links: u32,
    is_in_new: bool,
    is_in_old: bool,
}

fn told_by(bag: &Bag) -> Option<Seen> {
    let child = bag.vproc(Pid(3))?;
    let old = bag.group(Pid(2))?;
    let new = bag.group(Pid(3))?;
    Some(Seen {
        group: child.group,
        session: child.session,
        new_session: new.session,
        new_links: new.links,
        is_in_new: new.has_member(Pid(3)),
        is_in_old: old.has_member(Pid(3)),
    })
}

// What process 3 is answered to this call; None where the records are none that a decision starts from.
fn answer(alloc: Global, call: &Call, bag: &mut Bag) -> Result<Option<Outcome>, NoMemory>
    requires moves { IsMoveCall call.now }
    requires names { HasNames call.now }
{
    let own = Own {
        sig: Sig::fresh(),
        taken: 0,
    };
    if has_base(Pid(3), &own, bag) && has_counts(bag) {
        Ok(Some(decide_move(alloc, Pid(3), call, &own, bag)?))
    } else {
        Ok(None)
    }
}

// The new session has no process but the child.
#[test]
fn setsid_makes_a_session(rt: HostRuntime) -> Result<(), Fail> {
    let alloc = rt.alloc();
    let mut bag = family(alloc)?;
    let Some(Outcome::Done(done)) = answer(alloc, &Call::Setsid, &mut bag)? else {
        panic!(rt; "not done");
    };
    assert_eq!(rt; done.nudges.as_slice(), [Pid(2)].as_slice());
    let want = Entry::Called {
        caller: Pid(3),
        call: Call::Setsid,
        reply: Reply::Number(3),
    };
    assert_eq!(rt; done.entry, Some(want));
    let after = Seen {
        group: Pid(3),
        session: Pid(3),
        new_session: Pid(3),
        new_links: 0,
        is_in_new: true,
        is_in_old: false,
    };
    assert_eq!(rt; told_by(&bag), Some(after));
    Ok(())
}

// The parent is in the session and in another group, and so keeps the new one from being orphaned.
#[test]
fn setpgid_makes_a_group(rt: HostRuntime) -> Result<(), Fail> {
    let alloc = rt.alloc();
    let mut bag = family(alloc)?;
    let call = Call::Setpgid { pid: 0, pgid: 0 };
    let Some(Outcome::Done(done)) = answer(alloc, &call, &mut bag)? else {
        panic!(rt; "not done");
    };
    assert_eq!(rt; done.nudges.as_slice(), [Pid(2)].as_slice());
    let want = Entry::Called {
        caller: Pid(3),
        call,
        reply: Reply::Fine,
    };
    assert_eq!(rt; done.entry, Some(want));
    let after = Seen {
        group: Pid(3),
        session: Pid(2),
        new_session: Pid(2),
        new_links: 1,
        is_in_new: true,
        is_in_old: false,
    };
    assert_eq!(rt; told_by(&bag), Some(after));
    Ok(())
}
