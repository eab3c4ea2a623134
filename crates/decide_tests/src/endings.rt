// The parent ends, which was the last link of its child's group.
use crate::families::parting;
use crate::family::{fresh_own, has_base};
use group_record::{Allow, LogEntry};
use ops_ending::{decide_exit, decide_killed};
use record_bag::{Bag, Outcome};
use std::test::Fail;
use unix_calls::{Entry, Event, Phase};
use unix_names::{Life, Pid, Signal};

fn to_all(signal: Signal) -> LogEntry {
    LogEntry {
        signal,
        target: None,
        allow: Allow::All,
    }
}

// The process that ends has no record any more, as nobody waits for it; its child goes to the system process.
fn has_left(bag: &Bag) -> bool {
    bag.vproc(Pid(2)).is_none() && bag.vproc(Pid(3)).map(|v| v.parent) == Some(Pid(1))
}

#[tactic(auto, using(crate::proofs::Fitting::stopped_fits))]
#[test]
fn a_stopped_group_that_an_exit_orphans_is_hung_up_and_continued(
    rt: HostRuntime,
) -> Result<(), Fail> {
    let alloc = rt.alloc();
    let mut bag = parting(alloc, Life::Stopped, 1)?;
    let own = fresh_own();
    assert!(rt; has_base(Pid(2), &own, &bag));
    let Outcome::Done(done) = decide_exit(alloc, Pid(2), 0, &own, &mut bag)? else {
        panic!(rt; "not done");
    };
    assert!(rt; matches!(done.phase, Phase::Gone));
    assert_eq!(rt; done.nudges.as_slice(), [Pid(3)].as_slice());
    assert!(rt; has_left(&bag));
    let group = bag.group(Pid(3)).expect(&rt, "the child's group");
    assert_eq!(rt;
        group.log.as_slice(),
        [to_all(Signal::Hup), to_all(Signal::Cont)].as_slice()
    );
    assert_eq!(rt; (group.links, group.stopped), (0, 1));
    Ok(())
}

#[tactic(auto, using(crate::proofs::Fitting::stopped_fits))]
#[test]
fn so_does_a_signal_that_ends(rt: HostRuntime) -> Result<(), Fail> {
    let alloc = rt.alloc();
    let mut bag = parting(alloc, Life::Stopped, 1)?;
    let own = fresh_own();
    assert!(rt; has_base(Pid(2), &own, &bag));
    let Outcome::Done(done) = decide_killed(alloc, Pid(2), Signal::Kill, &own, &mut bag)? else {
        panic!(rt; "not done");
    };
    let want = Entry::Happened {
        pid: Pid(2),
        event: Event::EndedBy(Signal::Kill),
    };
    assert_eq!(rt; done.entry, Some(want));
    assert_eq!(rt; done.nudges.as_slice(), [Pid(3)].as_slice());
    assert!(rt; has_left(&bag));
    let group = bag.group(Pid(3)).expect(&rt, "the child's group");
    assert_eq!(rt;
        group.log.as_slice(),
        [to_all(Signal::Hup), to_all(Signal::Cont)].as_slice()
    );
    Ok(())
}

#[tactic(auto, using(crate::proofs::Fitting::running_fits))]
#[test]
fn an_orphaned_group_with_nobody_stopped_is_told_nothing(rt: HostRuntime) -> Result<(), Fail> {
    let alloc = rt.alloc();
    let mut bag = parting(alloc, Life::Runs, 0)?;
    let own = fresh_own();
    assert!(rt; has_base(Pid(2), &own, &bag));
    let Outcome::Done(done) = decide_exit(alloc, Pid(2), 0, &own, &mut bag)? else {
        panic!(rt; "not done");
    };
    assert!(rt; done.nudges.is_empty());
    assert!(rt; has_left(&bag));
    let group = bag.group(Pid(3)).expect(&rt, "the child's group");
    assert!(rt; group.log.is_empty());
    assert_eq!(rt; group.links, 0);
    Ok(())
}
