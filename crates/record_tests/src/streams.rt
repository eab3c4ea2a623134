ghost use Rattle.std.specs.Prelude.{IsTrue, ◌↔◌, ◌≤◌, ◌≡◌, [], All, length};
ghost use Rattle.sig_stream.specs.Streams.{stream, tail};

use group_record::{Allow, Group, Member, Members};
use sig_stream::{fold_tail, is_listed, regroup, settle, stream_len, tail_len};
use signal_state::{Own, Sig};
use std::alloc::Global;
use std::test::Fail;
use unix_names::{Life, NoMemory, NodeId, Pid, Seq, Signal};
use vproc_record::{Children, Vproc};

fn process(alloc: Global, pid: u32, uid: u32) -> Vproc {
    Vproc {
        pid: Pid(pid),
        parent: Pid(1),
        group: Pid(2),
        session: Pid(2),
        uid,
        life: Life::Runs,
        change: None,
        execed: false,
        ignchld: false,
        loc: NodeId(0),
        children: Children::new(alloc),
        backlog: Seq::new(alloc),
    }
}

fn group(alloc: Global, id: u32) -> Group {
    Group {
        id: Pid(id),
        session: Pid(2),
        members: Members::new(alloc),
        log: Seq::new(alloc),
        links: 0,
        stopped: 0,
    }
}

fn is_within(g: &Group) -> bool
    ensures { IsTrue result ↔ All (λ m. m.from ≤ length g.now.log) g.now.members }
{
    let end = g.log.len() as u64;
    g.members.as_slice().iter().all(|m| m.from <= end)
}

fn has_taken_all(own: &Own, v: &Vproc, g: &Group) -> bool
    requires { own.now.taken ≤ length (stream v.now g.now) }
    ensures { IsTrue result ↔ (tail own.now.taken v.now g.now ≡ []) }
{
    tail_len(v, g, own.taken) == 0
}

fn froms(g: &Group) -> (u64, u64) {
    let members = g.members.as_slice();
    (
        members.get(0).map_or(99, |m| m.from),
        members.get(1).map_or(99, |m| m.from),
    )
}

// Five entries, and members whose parts begin at 3 and 5.
#[test]
fn trims_what_all_have_passed(rt: HostRuntime) -> Result<(), Fail> {
    let mut g = group(rt.alloc(), 2);
    for s in [Signal::Hup, Signal::Int, Signal::Quit] {
        g.append(s, None, Allow::All)?;
    }
    g.members.move_last(Member {
        pid: Pid(3),
        from: 3,
        uid: 0,
    })?;
    g.append(Signal::Usr1, None, Allow::All)?;
    g.append(Signal::Usr2, None, Allow::All)?;
    g.members.move_last(Member {
        pid: Pid(4),
        from: 5,
        uid: 0,
    })?;
    assert!(rt; is_within(&g));
    g.trim();
    assert_eq!(rt; g.log.len(), 2);
    assert_eq!(rt; froms(&g), (0, 2));
    let mut v = process(rt.alloc(), 3, 0);
    let mut own = Own {
        sig: Sig::fresh(),
        taken: 0,
    };
    assert_eq!(rt; tail_len(&v, &g, 0), 2);
    fold_tail(&mut own, &v, &g);
    assert_eq!(rt; own.taken, 2);
    assert!(rt; own.sig.pending.has(Signal::Usr1) && own.sig.pending.has(Signal::Usr2));
    assert!(rt; is_listed(&v, &g) && has_taken_all(&own, &v, &g));
    settle(&mut own, &mut v, &mut g);
    assert_eq!(rt; froms(&g), (2, 2));
    assert!(rt; is_within(&g));
    g.trim();
    assert_eq!(rt; g.log.len(), 0);
    assert_eq!(rt; froms(&g), (0, 0));
    Ok(())
}

// A signal for one user id, one for another process, and one for all.
#[test]
fn regroups_with_what_was_sent(rt: HostRuntime) -> Result<(), Fail> {
    let mut from = group(rt.alloc(), 2);
    let mut to = group(rt.alloc(), 9);
    let mut v = process(rt.alloc(), 3, 7);
    assert!(rt; from.is_empty() && !from.has_member(v.pid));
    from.join(v.pid, v.uid)?;
    from.append(Signal::Usr1, None, Allow::Uid(7))?;
    from.append(Signal::Usr2, None, Allow::Uid(8))?;
    from.append(Signal::Term, Some(Pid(4)), Allow::All)?;
    from.append(Signal::Hup, Some(Pid(3)), Allow::All)?;
    to.append(Signal::Kill, None, Allow::All)?;
    assert!(rt; is_listed(&v, &from) && !to.has_member(v.pid));
    regroup(&mut v, &mut from, &mut to)?;
    assert_eq!(rt;
        v.backlog.as_slice(),
        [Signal::Usr1, Signal::Hup].as_slice()
    );
    assert_eq!(rt; v.group, Pid(9));
    assert!(rt; from.is_empty());
    assert_eq!(rt;
        to.members.as_slice(),
        [Member {
            pid: Pid(3),
            from: 1,
            uid: 7
        }]
        .as_slice()
    );
    assert_eq!(rt; stream_len(&v, &to), 2);
    Ok(())
}
