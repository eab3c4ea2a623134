use crate::family::{family, few_stopped, fresh_own, has_base};
use group_record::{Allow, LogEntry};
use migrate_core::decide_push;
use ops_deliver::deliver_part;
use record_bag::{Outcome, Site};
use signal_state::Own;
use std::test::Fail;
use unix_calls::{Event, Phase};
use unix_names::{Life, NodeId, Pid, Signal, WaitStatus};

fn told_parent() -> LogEntry {
    LogEntry {
        signal: Signal::Chld,
        target: Some(Pid(2)),
        allow: Allow::All,
    }
}

#[test]
fn a_stop_and_a_continuing_tell_the_parent(rt: HostRuntime) -> Result<(), Fail> {
    let alloc = rt.alloc();
    let mut bag = family(alloc)?;
    let mut sig = fresh_own().sig;
    sig.generate(Signal::Stop);
    let own = Own { sig, taken: 0 };
    assert!(rt; has_base(Pid(3), &own, &bag));
    assert!(rt; few_stopped(Pid(3), &bag));
    let stopped = deliver_part(
        alloc,
        Pid(3),
        Event::StoppedBy(Signal::Stop),
        &own,
        &mut bag,
    )?;
    let Outcome::Done(done) = stopped else {
        panic!(rt; "not decided");
    };
    assert!(rt; matches!(done.phase, Phase::Stopped));
    assert!(rt; done.own.sig.stopped);
    assert_eq!(rt; done.nudges.as_slice(), [Pid(2)].as_slice());
    let child = bag.vproc(Pid(3)).expect(&rt, "the child");
    assert_eq!(rt; child.life, Life::Stopped);
    assert_eq!(rt; child.change, Some(WaitStatus::Stopped(Signal::Stop)));
    let group = bag.group(Pid(2)).expect(&rt, "the group");
    assert_eq!(rt; group.stopped, 1);
    assert_eq!(rt; group.log.as_slice(), [told_parent()].as_slice());
    assert!(rt; has_base(Pid(3), &done.own, &bag));
    assert!(rt; few_stopped(Pid(3), &bag));
    let went_on = deliver_part(alloc, Pid(3), Event::Continued, &done.own, &mut bag)?;
    let Outcome::Done(next) = went_on else {
        panic!(rt; "not decided");
    };
    assert!(rt; matches!(next.phase, Phase::Ready));
    let group = bag.group(Pid(2)).expect(&rt, "the group");
    assert_eq!(rt; group.stopped, 0);
    assert_eq!(rt;
        group.log.as_slice(),
        [told_parent(), told_parent()].as_slice()
    );
    Ok(())
}

#[test]
fn a_push_moves_the_place_alone(rt: HostRuntime) -> Result<(), Fail> {
    let alloc = rt.alloc();
    let mut bag = family(alloc)?;
    let own = fresh_own();
    let site = Site {
        node: NodeId(4),
        fresh: Pid(4_000_002),
    };
    assert!(rt; has_base(Pid(3), &own, &bag));
    let away = decide_push(alloc, Pid(3), NodeId(5), &own, &mut bag, site);
    assert!(rt; matches!(away, Outcome::Away(NodeId(5))));
    let pushed = decide_push(alloc, Pid(3), NodeId(4), &own, &mut bag, site);
    assert!(rt; matches!(pushed, Outcome::Done(_)));
    let child = bag.vproc(Pid(3)).expect(&rt, "the child");
    assert_eq!(rt; child.loc, NodeId(4));
    Ok(())
}
