// Small families as a courier holds them, each told whole: all of user 5, and of the session of process 2.
ghost use Rattle.std.specs.Prelude.{◌≡◌, ◌∷◌, [], IfOk, OnOk};
ghost use Rattle.record_bag.specs.Bags.{with_held};
ghost use Rattle.decide_tests.specs.Families.{vproc_for, group_for, member_for, parting, two_ended, lone};

use group_record::{Allow, Group, LogEntry, Member, Members};
use record_bag::{Bag, Held};
use std::alloc::Global;
use unix_names::{Life, Name, NoMemory, NodeId, Pid, Seq, Signal, WaitStatus};
use vproc_record::{Children, Vproc};

const ELDER: u32 = 1_000_002;

fn process(alloc: Global, number: u32, parent: u32, group: u32, life: Life) -> Vproc
    ensures { result ≡ vproc_for number parent group life [] }
{
    Vproc {
        pid: Pid(number),
        parent: Pid(parent),
        group: Pid(group),
        session: Pid(2),
        uid: 5,
        life,
        change: None,
        execed: false,
        ignchld: false,
        loc: NodeId(0),
        children: Children::new(alloc),
        backlog: Seq::new(alloc),
    }
}

fn member(number: u32) -> Member
    ensures { result ≡ member_for number }
{
    Member {
        pid: Pid(number),
        from: 0,
        uid: 5,
    }
}

fn alone(alloc: Global, number: u32) -> Result<Members, NoMemory>
    ensures { IfOk result (λ members. members ≡ member_for number ∷ []) }
{
    let mut members = Members::new(alloc);
    members.move_last(member(number))?;
    Ok(members)
}

fn group(alloc: Global, id: u32, members: Members, links: u32, stopped: u32) -> Group
    ensures { result ≡ group_for id members links stopped }
{
    Group {
        id: Pid(id),
        session: Pid(2),
        members,
        log: Seq::new(alloc),
        links,
        stopped,
    }
}

fn hold(bag: &mut Bag, name: Name, held: Held) -> Result<(), NoMemory>
    ensures { OnOk result (bag.new ≡ with_held bag.old name held) }
{
    match bag.put(name, held) {
        Ok(()) => Ok(()),
        Err(_) => Err(NoMemory),
    }
}

/// 2 with its child 3, which is in a group of its own and lives so, with so many stopped there.
pub fn parting(alloc: Global, life: Life, stopped: u32) -> Result<Bag, NoMemory>
    ensures { IfOk result (λ bag. bag ≡ parting life stopped) }
{
    let mut parent = process(alloc, 2, 1, 2, Life::Runs);
    if parent.add_child(Pid(3)).is_err() {
        return Err(NoMemory);
    }
    let child = process(alloc, 3, 2, 3, life);
    let own = group(alloc, 2, alone(alloc, 2)?, 0, 0);
    let other = group(alloc, 3, alone(alloc, 3)?, 1, stopped);
    let mut bag = Bag::new(alloc);
    hold(&mut bag, Name::V(Pid(2)), Held::V(Some(parent)))?;
    hold(&mut bag, Name::V(Pid(3)), Held::V(Some(child)))?;
    hold(&mut bag, Name::G(Pid(2)), Held::G(Some(own)))?;
    hold(&mut bag, Name::G(Pid(3)), Held::G(Some(other)))?;
    Ok(bag)
}

/// 2 with its children 1000002 and 3, which have ended with 7 and 8. The one with the greater pid was forked first.
pub fn two_ended(alloc: Global) -> Result<Bag, NoMemory>
    ensures { IfOk result (λ bag. bag ≡ two_ended) }
{
    let mut parent = process(alloc, 2, 1, 2, Life::Runs);
    if parent.add_child(Pid(ELDER)).is_err() || parent.add_child(Pid(3)).is_err() {
        return Err(NoMemory);
    }
    let elder = process(alloc, ELDER, 2, 2, Life::Ended(WaitStatus::Exited(7)));
    let younger = process(alloc, 3, 2, 2, Life::Ended(WaitStatus::Exited(8)));
    let mut members = alone(alloc, 2)?;
    members.move_last(member(ELDER))?;
    members.move_last(member(3))?;
    let mut bag = Bag::new(alloc);
    hold(&mut bag, Name::V(Pid(2)), Held::V(Some(parent)))?;
    hold(&mut bag, Name::V(Pid(3)), Held::V(Some(younger)))?;
    hold(&mut bag, Name::V(Pid(ELDER)), Held::V(Some(elder)))?;
    hold(
        &mut bag,
        Name::G(Pid(2)),
        Held::G(Some(group(alloc, 2, members, 0, 0))),
    )?;
    Ok(bag)
}

/// 2 alone in its group, whose log has this signal for all.
pub fn lone(alloc: Global, signal: Signal) -> Result<Bag, NoMemory>
    ensures { IfOk result (λ bag. bag ≡ lone signal) }
{
    let mut own = group(alloc, 2, alone(alloc, 2)?, 0, 0);
    own.log.push(LogEntry {
        signal,
        target: None,
        allow: Allow::All,
    })?;
    let mut bag = Bag::new(alloc);
    hold(
        &mut bag,
        Name::V(Pid(2)),
        Held::V(Some(process(alloc, 2, 1, 2, Life::Runs))),
    )?;
    hold(&mut bag, Name::G(Pid(2)), Held::G(Some(own)))?;
    Ok(bag)
}
