use group_record::{Allow, Group, Member, Members};
use std::test::Fail;
use unix_names::{Pid, Seq, Signal};

#[test]
fn members_and_log(rt: HostRuntime) -> Result<(), Fail> {
    let mut g = Group {
        id: Pid(2),
        session: Pid(2),
        members: Members::new(rt.alloc()),
        log: Seq::new(rt.alloc()),
        links: 0,
        stopped: 0,
    };
    assert!(rt; g.is_empty());
    g.join(Pid(2), 7)?;
    g.append(Signal::Usr1, None, Allow::Uid(7))?;
    assert!(rt; !g.has_member(Pid(3)));
    g.join(Pid(3), 0)?;
    g.append(Signal::Term, Some(Pid(2)), Allow::All)?;
    let copy = g.copy()?;
    assert!(rt; g.leave(Pid(2)) && !g.leave(Pid(2)));
    assert_eq!(rt;
        g.members.as_slice(),
        [Member {
            pid: Pid(3),
            from: 1,
            uid: 0
        }]
        .as_slice()
    );
    assert_eq!(rt; copy.members.len(), 2);
    assert_eq!(rt; copy.part_of(Pid(2)).len(), 2);
    assert!(rt; !copy.part_of(Pid(3)).iter().any(|e| e.concerns(Pid(3), 0)));
    Ok(())
}

fn numbered(number: u32, from: u64) -> Member {
    Member {
        pid: Pid(number),
        from,
        uid: 0,
    }
}

fn pid_at(members: &Members, at: usize) -> u32 {
    members.as_slice().get(at).map_or(0, |m| m.pid.0)
}

// More than are looked at one by one, of whom some leave: from among the first, from among the last, and from between.
#[test]
fn many_members_are_found(rt: HostRuntime) -> Result<(), Fail> {
    let mut members = Members::new(rt.alloc());
    for number in 100..140 {
        members.move_last(numbered(number, 7))?;
    }
    for number in [100, 120, 139] {
        assert!(rt; members.remove(Pid(number)) && !members.remove(Pid(number)));
    }
    assert_eq!(rt; members.len(), 37);
    assert_eq!(rt; (pid_at(&members, 0), pid_at(&members, 36)), (101, 138));
    for number in 101..139 {
        assert_eq!(rt; members.has(Pid(number)), number != 120);
    }
    Ok(())
}

#[test]
fn many_members_move_and_begin(rt: HostRuntime) -> Result<(), Fail> {
    let mut members = Members::new(rt.alloc());
    for number in 100..140 {
        members.move_last(numbered(number, 7))?;
    }
    members.move_last(numbered(102, 9))?;
    members.move_last(numbered(130, 9))?;
    assert_eq!(rt; members.len(), 40);
    assert_eq!(rt; (pid_at(&members, 38), pid_at(&members, 39)), (102, 130));
    assert_eq!(rt; members.begin_at(3, Pid(138)), 7);
    assert_eq!(rt; members.begin_at(4, Pid(102)), 9);
    assert_eq!(rt; members.begin_at(5, Pid(99)), 0);
    assert_eq!(rt; members.least_from(), 3);
    members.lower_each(2);
    members.remove_at(0);
    let copy = members.copy()?;
    assert_eq!(rt; copy.as_slice(), members.as_slice());
    assert_eq!(rt; copy.member_of(Pid(138)), Some(numbered(138, 1)));
    assert_eq!(rt; copy.member_of(Pid(100)), None);
    assert_eq!(rt; (copy.from_of(Pid(102)), copy.from_of(Pid(130))), (2, 7));
    Ok(())
}
