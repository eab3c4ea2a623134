use std::test::Fail;
use unix_names::{Life, NodeId, Pid, Seq, Signal};
use vproc_record::{Children, Refused, Vproc};

#[test]
fn sixty_four_children(rt: HostRuntime) -> Result<(), Fail> {
    let mut v = Vproc {
        pid: Pid(2),
        parent: Pid(1),
        group: Pid(2),
        session: Pid(2),
        uid: 7,
        life: Life::Runs,
        change: None,
        execed: false,
        ignchld: false,
        loc: NodeId(0),
        children: Children::new(rt.alloc()),
        backlog: Seq::new(rt.alloc()),
    };
    for serial in 3..67u32 {
        assert_eq!(rt; v.add_child(Pid(serial)), Ok(()));
    }
    assert_eq!(rt; v.add_child(Pid(67)), Err(Refused::Full));
    v.drop_child(Pid(4));
    v.drop_child(Pid(67));
    assert_eq!(rt; v.children.len(), 63);
    assert_eq!(rt;
        v.children
            .as_slice()
            .iter()
            .take(2)
            .copied()
            .collect::<Vec<Pid>>(rt.alloc())?,
        vec![in rt.alloc(); Pid(3), Pid(5)]?
    );
    v.push_backlog(Signal::Hup)?;
    v.push_backlog(Signal::Cont)?;
    let copy = v.copy()?;
    assert_eq!(rt;
        copy.backlog.as_slice(),
        [Signal::Hup, Signal::Cont].as_slice()
    );
    assert_eq!(rt; copy.children.as_slice(), v.children.as_slice());
    Ok(())
}
