// A parent and its child in one group, as a courier holds them: 2, whose parent is the system process, and 3, its child. The user of 2 is 5, that of 3 is 7.
ghost use Rattle.std.specs.Prelude.{◌≡◌, ◌≤◌, ◌<◌, false, Some, All, IsTrue, length};
ghost use Rattle.vproc_record.specs.declared.Vproc.{Vproc as TheVproc};
ghost use Rattle.group_record.specs.declared.Group.{Group as TheGroup};
ghost use Rattle.group_record.specs.Members.{has_member};
ghost use Rattle.decide_law.specs.Agrees.{vproc_at, group_at};
ghost use Rattle.decide_law.specs.Base.{HasBase};
ghost use Rattle.decide_tests.specs.Families.{fresh_own};

use group_record::{Group, Member, Members};
use record_bag::{Bag, Held};
use sig_stream::{is_listed, stream_len};
use signal_state::{Own, Sig};
use std::alloc::Global;
use unix_names::{Life, Name, NoMemory, NodeId, Pid, Seq};
use vproc_record::{Children, Vproc};

fn process(alloc: Global, pid: u32, parent: u32, uid: u32) -> Vproc {
    Vproc {
        pid: Pid(pid),
        parent: Pid(parent),
        group: Pid(2),
        session: Pid(2),
        uid,
        life: Life::Runs,
        change: None,
        execed: false,
        ignchld: false,
        loc: NodeId(0),
        children: Children::new(alloc),
        backlog: Seq::new(alloc),
    }
}

fn group(alloc: Global) -> Result<Group, NoMemory> {
    let mut members = Members::new(alloc);
    members.move_last(Member {
        pid: Pid(2),
        from: 0,
        uid: 5,
    })?;
    members.move_last(Member {
        pid: Pid(3),
        from: 0,
        uid: 7,
    })?;
    Ok(Group {
        id: Pid(2),
        session: Pid(2),
        members,
        log: Seq::new(alloc),
        links: 0,
        stopped: 0,
    })
}

fn hold(bag: &mut Bag, name: Name, held: Held) -> Result<(), NoMemory> {
    match bag.put(name, held) {
        Ok(()) => Ok(()),
        Err(_) => Err(NoMemory),
    }
}

/// A bag with both records and that of the group.
pub fn family(alloc: Global) -> Result<Bag, NoMemory> {
    let mut parent = process(alloc, 2, 1, 5);
    if parent.add_child(Pid(3)).is_err() {
        return Err(NoMemory);
    }
    let mut bag = Bag::new(alloc);
    hold(&mut bag, Name::V(Pid(2)), Held::V(Some(parent)))?;
    hold(
        &mut bag,
        Name::V(Pid(3)),
        Held::V(Some(process(alloc, 3, 2, 7))),
    )?;
    hold(&mut bag, Name::G(Pid(2)), Held::G(Some(group(alloc)?)))?;
    Ok(bag)
}

/// A process that has taken nothing, and has no signals.
pub fn fresh_own() -> Own
    ensures { result ≡ fresh_own }
{
    Own {
        sig: Sig::fresh(),
        taken: 0,
    }
}

fn is_within(g: &Group) -> bool
    ensures { IsTrue result → All (λ m. m.from ≤ length g.now.log) g.now.members }
{
    let end = g.log.len() as u64;
    g.members.as_slice().iter().all(|m| m.from <= end)
}

/// Whether the records are there that a decision starts from.
pub fn has_base(pid: Pid, own: &Own, bag: &Bag) -> bool
    ensures { IsTrue result → HasBase own.now pid bag.now }
{
    let Some(v) = bag.vproc(pid) else {
        return false;
    };
    let Some(g) = bag.group(v.group) else {
        return false;
    };
    v.pid == pid && is_listed(v, g) && own.taken <= stream_len(v, g) && is_within(g)
}

/// Whether a pid is no member of a process's group.
pub fn is_free(pid: Pid, child: Pid, bag: &Bag) -> bool
    ensures { IsTrue result → (v : TheVproc) (g : TheGroup) → vproc_at bag.now pid ≡ Some (Some v) → group_at bag.now v.group ≡ Some (Some g) → has_member g.members child ≡ false }
{
    let Some(v) = bag.vproc(pid) else {
        return false;
    };
    let Some(g) = bag.group(v.group) else {
        return false;
    };
    !g.has_member(child)
}

/// Whether few members of a process's group are stopped.
pub fn few_stopped(pid: Pid, bag: &Bag) -> bool
    ensures { IsTrue result → (v : TheVproc) (g : TheGroup) → vproc_at bag.now pid ≡ Some (Some v) → group_at bag.now v.group ≡ Some (Some g) → g.stopped < 1000000 }
{
    let Some(v) = bag.vproc(pid) else {
        return false;
    };
    let Some(g) = bag.group(v.group) else {
        return false;
    };
    g.stopped < 1_000_000
}
