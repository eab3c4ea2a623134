use crate::family::{family, fresh_own, has_base};
use group_record::{Allow, LogEntry};
use ops_signal::decide_kill;
use record_bag::Outcome;
use std::test::Fail;
use unix_calls::{Entry, Phase, Reply};
use unix_names::{Pid, Signal};

#[test]
fn a_user_signals_those_of_a_group_that_are_its_own(rt: HostRuntime) -> Result<(), Fail> {
    let alloc = rt.alloc();
    let mut bag = family(alloc)?;
    let own = fresh_own();
    assert!(rt; has_base(Pid(2), &own, &bag));
    let Outcome::Done(done) = decide_kill(alloc, Pid(2), -2, 15, &own, &mut bag)? else {
        panic!(rt; "not decided");
    };
    assert!(rt;
        matches!(
            done.entry,
            Some(Entry::Called {
                reply: Reply::Fine,
                ..
            })
        )
    );
    assert!(rt; matches!(done.phase, Phase::Ready));
    assert_eq!(rt; done.nudges.as_slice(), [Pid(3)].as_slice());
    let group = bag.group(Pid(2)).expect(&rt, "the group");
    let told = LogEntry {
        signal: Signal::Term,
        target: None,
        allow: Allow::Uid(5),
    };
    assert_eq!(rt; group.log.as_slice(), [told].as_slice());
    Ok(())
}
