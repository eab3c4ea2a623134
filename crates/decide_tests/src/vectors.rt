// The vector of all decisions: what a process's own record and its pending signals come before.
ghost use Rattle.std.specs.Prelude.{◌≡◌};
ghost use Rattle.decide_tests.specs.Families.{free_site, getpid_job};

use crate::families::lone;
use crate::family::fresh_own;
use record_bag::{Bag, OpVector, Outcome, Site};
use std::test::Fail;
use unix_calls::{Call, Entry, Event, Job, Phase};
use unix_names::{Name, NodeId, Pid, Signal};
use unix_ops::UnixOps;

fn site() -> Site
    ensures { result ≡ free_site }
{
    Site {
        node: NodeId(0),
        fresh: Pid(4),
    }
}

fn getpid() -> Job
    ensures { result ≡ getpid_job }
{
    Job::Ask(Call::Getpid, None)
}

#[tactic(auto, using(crate::proofs::Alone::nothing_held_fits))]
#[test]
fn with_nothing_held_the_callers_record_is_needed(rt: HostRuntime) -> Result<(), Fail> {
    let alloc = rt.alloc();
    let mut bag = Bag::new(alloc);
    let own = fresh_own();
    let job = getpid();
    let Outcome::Need(names) = UnixOps.decide(alloc, Pid(2), &job, &own, &mut bag, site())? else {
        panic!(rt; "no need");
    };
    assert_eq!(rt; names.as_slice(), [Name::V(Pid(2))].as_slice());
    Ok(())
}

// The log has a signal for all members whose default action ends them, and the call would be answered at once.
#[tactic(auto, using(crate::proofs::Alone::ending_fits))]
#[test]
fn what_is_pending_comes_before_the_job(rt: HostRuntime) -> Result<(), Fail> {
    let alloc = rt.alloc();
    let mut bag = lone(alloc, Signal::Term)?;
    let own = fresh_own();
    let job = getpid();
    let Outcome::Done(done) = UnixOps.decide(alloc, Pid(2), &job, &own, &mut bag, site())? else {
        panic!(rt; "not done");
    };
    let want = Entry::Happened {
        pid: Pid(2),
        event: Event::EndedBy(Signal::Term),
    };
    assert_eq!(rt; done.entry, Some(want));
    assert!(rt; matches!(done.phase, Phase::Gone));
    assert!(rt; bag.vproc(Pid(2)).is_none() && bag.group(Pid(2)).is_none());
    Ok(())
}
