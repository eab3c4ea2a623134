ghost use Rattle.std.specs.Prelude.{◌<◌, ◌^◌};
ghost use Rattle.record_tests.specs.Elsewhere.{elsewhere, lawful_elsewhere};
ghost use Rattle.signal_state.specs.Sig.{fresh};
ghost use Rattle.unix_calls.specs.declared.Job.TheVariants.{Look};

use group_record::{Group, Members};
use record_bag::{Bag, Held, OpVector, Outcome, Site};
use signal_state::{Own, Sig};
use std::alloc::Global;
use std::test::Fail;
use unix_calls::Job;
use unix_names::{Life, Name, NoMemory, NodeId, Pid, Seq};
use vproc_record::{Children, Vproc};

/// Decides nothing: needs the process's own record, and then sends the question to the site's node.
struct Elsewhere;

impl OpVector for Elsewhere {
    ghost fits = { λ s pid job own bag site. pid.0 < 2 ^ 32 };

    ghost answer = { λ s pid job own bag site. elsewhere pid bag site };

    fn decide(
        &self,
        alloc: Global,
        pid: Pid,
        _job: &Job,
        _own: &Own,
        bag: &mut Bag,
        site: Site,
    ) -> Result<Outcome, NoMemory> {
        if bag.holds(Name::V(pid)) {
            return Ok(Outcome::Away(site.node));
        }
        let mut names = Seq::new(alloc);
        names.push(Name::V(pid))?;
        Ok(Outcome::Need(names))
    }

    ghost lawful = { λ s pid job own bag site fits. lawful_elsewhere pid bag site fits };
}

/// What a vector answers process 2 at node 1.
fn answer_to_two<O: OpVector>(ops: &O, alloc: Global, bag: &mut Bag) -> Result<Outcome, NoMemory>
    requires { O.fits ops.now (record { 0 = 2 }) Look (record { sig = fresh; taken = 0 }) bag.old (record { node = record { 0 = 1 }; fresh = record { 0 = 1000002 } }) }
{
    let own = Own {
        sig: Sig::fresh(),
        taken: 0,
    };
    let site = Site {
        node: NodeId(1),
        fresh: Pid(1_000_002),
    };
    ops.decide(alloc, Pid(2), &Job::Look, &own, bag, site)
}

fn vproc(alloc: Global, pid: u32) -> Vproc {
    Vproc {
        pid: Pid(pid),
        parent: Pid(1),
        group: Pid(2),
        session: Pid(2),
        uid: 0,
        life: Life::Runs,
        change: None,
        execed: false,
        ignchld: false,
        loc: NodeId(0),
        children: Children::new(alloc),
        backlog: Seq::new(alloc),
    }
}

fn group(alloc: Global, id: u32) -> Group {
    Group {
        id: Pid(id),
        session: Pid(2),
        members: Members::new(alloc),
        log: Seq::new(alloc),
        links: 0,
        stopped: 0,
    }
}

#[test]
fn a_bag_is_in_order_of_name(rt: HostRuntime) -> Result<(), Fail> {
    let mut bag = Bag::new(rt.alloc());
    let leader = group(rt.alloc(), 2);
    assert!(rt; bag.put(Name::G(Pid(2)), Held::G(Some(leader))).is_ok());
    assert!(rt;
        bag.put(Name::V(Pid(9)), Held::absent(Name::V(Pid(9))))
            .is_ok()
    );
    let first = vproc(rt.alloc(), 3);
    assert!(rt; bag.put(Name::V(Pid(3)), Held::V(Some(first))).is_ok());
    assert_eq!(rt; bag.name_at(0), Some(Name::V(Pid(3))));
    assert_eq!(rt; bag.name_at(1), Some(Name::V(Pid(9))));
    assert_eq!(rt; bag.greatest(), Some(Name::G(Pid(2))));
    assert!(rt; bag.holds(Name::V(Pid(9))));
    assert!(rt; bag.vproc(Pid(9)).is_none());
    assert!(rt; bag.group(Pid(2)).is_some());
    bag.set(Name::V(Pid(3)), Held::absent(Name::V(Pid(3))));
    assert!(rt; bag.vproc(Pid(3)).is_none());
    let least = bag.take_least();
    assert_eq!(rt; least.map(|(name, _)| name), Some(Name::V(Pid(3))));
    Ok(())
}

#[test]
fn a_vector_asks_for_what_it_lacks(rt: HostRuntime) -> Result<(), Fail> {
    let mut bag = Bag::new(rt.alloc());
    let asked = answer_to_two(&Elsewhere, rt.alloc(), &mut bag)?;
    assert!(rt; matches!(asked, Outcome::Need(_)));
    let own = vproc(rt.alloc(), 2);
    assert!(rt; bag.put(Name::V(Pid(2)), Held::V(Some(own))).is_ok());
    let answered = answer_to_two(&Elsewhere, rt.alloc(), &mut bag)?;
    assert!(rt; matches!(answered, Outcome::Away(NodeId(1))));
    Ok(())
}
