use record_bag::Held;
use record_table::{Nudged, PutBack, Slots, Taken};
use std::alloc::Global;
use std::test::Fail;
use unix_names::{Life, Name, NodeId, Pid, Seq};
use vproc_record::{Children, Vproc};

fn vproc(alloc: Global, pid: u32, life: Life) -> Vproc {
    Vproc {
        pid: Pid(pid),
        parent: Pid(1),
        group: Pid(2),
        session: Pid(2),
        uid: 0,
        life,
        change: None,
        execed: false,
        ignchld: false,
        loc: NodeId(3),
        children: Children::new(alloc),
        backlog: Seq::new(alloc),
    }
}

fn pid_of(held: Held) -> Option<Pid> {
    held.into_vproc().map(|vproc| vproc.pid)
}

fn pid_taken(taken: Taken) -> Option<Pid> {
    match taken {
        Taken::Here(held) => pid_of(held),
        Taken::Out => None,
    }
}

#[test]
fn a_record_goes_from_hand_to_hand(rt: HostRuntime) -> Result<(), Fail> {
    let name = Name::V(Pid(2));
    let mut slots: Slots<u8> = Slots::new(rt.alloc());
    assert!(rt; slots.create(vproc(rt.alloc(), 2, Life::Runs)).is_ok());
    assert_eq!(rt; slots.nudge(Pid(2)), Nudged::At(NodeId(3)));
    assert_eq!(rt; pid_taken(slots.take(rt.alloc(), name)?), Some(Pid(2)));
    assert!(rt; slots.is_out(name));
    assert!(rt; matches!(slots.take(rt.alloc(), name)?, Taken::Out));
    assert_eq!(rt; slots.wait(name, 7), Ok(()));
    assert_eq!(rt; slots.wait(name, 8), Ok(()));
    assert_eq!(rt; slots.nudge(Pid(2)), Nudged::Marked);
    let held = Held::V(Some(vproc(rt.alloc(), 2, Life::Runs)));
    let handed = slots.put(name, held);
    assert!(rt; matches!(handed, PutBack::Handed { waiter: 7, .. }));
    Ok(())
}
