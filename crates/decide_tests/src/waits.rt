use crate::families::two_ended;
use crate::family::{fresh_own, has_base};
use ops_exit_wait::decide_waitpid;
use record_bag::Outcome;
use std::test::Fail;
use unix_calls::{Call, Entry, Reply};
use unix_names::{Pid, WaitStatus};

#[tactic(auto, using(crate::proofs::Fitting::waiting_fits))]
#[test]
fn of_two_ended_children_the_first_forked_is_reported(rt: HostRuntime) -> Result<(), Fail> {
    let alloc = rt.alloc();
    let mut bag = two_ended(alloc)?;
    let own = fresh_own();
    assert!(rt; has_base(Pid(2), &own, &bag));
    let waited = decide_waitpid(alloc, Pid(2), -1, false, false, &own, &mut bag)?;
    let Outcome::Done(done) = waited else {
        panic!(rt; "not done");
    };
    let want = Entry::Called {
        caller: Pid(2),
        call: Call::Waitpid {
            sel: -1,
            stopped: false,
            continued: false,
        },
        reply: Reply::Child(Pid(1_000_002), WaitStatus::Exited(7)),
    };
    assert_eq!(rt; done.entry, Some(want));
    assert!(rt; bag.vproc(Pid(1_000_002)).is_none());
    let parent = bag.vproc(Pid(2)).expect(&rt, "the parent");
    assert_eq!(rt; parent.children.as_slice(), [Pid(3)].as_slice());
    let group = bag.group(Pid(2)).expect(&rt, "the group");
    assert!(rt; !group.has_member(Pid(1_000_002)) && group.has_member(Pid(3)));
    Ok(())
}
