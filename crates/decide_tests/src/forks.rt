ghost use Rattle.std.specs.Prelude.{◌≡◌};

use crate::family::{family, fresh_own, has_base, is_free};
use ops_fork::decide_fork;
use record_bag::{Decided, Outcome, Site};
use std::test::Fail;
use unix_calls::{Entry, Reply};
use unix_names::{NodeId, Pid};

fn site(node: u32) -> Site
    ensures { result ≡ record { node = record { 0 = node }; fresh = record { 0 = 1000002 } } }
{
    Site {
        node: NodeId(node),
        fresh: Pid(1_000_002),
    }
}

#[test]
fn a_child_is_the_last_of_its_parent_and_of_the_group(rt: HostRuntime) -> Result<(), Fail> {
    let alloc = rt.alloc();
    let mut bag = family(alloc)?;
    let own = fresh_own();
    assert!(rt; has_base(Pid(2), &own, &bag));
    assert!(rt; is_free(Pid(2), Pid(1_000_002), &bag));
    let forked = decide_fork(alloc, Pid(2), None, &own, &mut bag, site(0))?;
    let Outcome::Done(done) = forked else {
        panic!(rt; "not decided");
    };
    let Decided { entry, born, .. } = done;
    let Some(Entry::Called { reply, .. }) = entry else {
        panic!(rt; "no entry");
    };
    assert_eq!(rt; reply, Reply::Number(1_000_002));
    let parent = bag.vproc(Pid(2)).expect(&rt, "the parent");
    assert_eq!(rt;
        parent.children.as_slice(),
        [Pid(3), Pid(1_000_002)].as_slice()
    );
    let group = bag.group(Pid(2)).expect(&rt, "the group");
    assert_eq!(rt; group.members.len(), 3);
    assert_eq!(rt;
        group.member_of(Pid(1_000_002)).map(|m| (m.from, m.uid)),
        Some((0, 5))
    );
    let born = born.expect(&rt, "the child");
    assert_eq!(rt;
        (born.pid, born.parent, born.loc),
        (Pid(1_000_002), Pid(2), NodeId(0))
    );
    assert!(rt; born.backlog.is_empty());
    Ok(())
}

#[test]
fn a_fork_goes_to_the_childs_node_first(rt: HostRuntime) -> Result<(), Fail> {
    let alloc = rt.alloc();
    let mut bag = family(alloc)?;
    let own = fresh_own();
    assert!(rt; has_base(Pid(2), &own, &bag));
    assert!(rt; is_free(Pid(2), Pid(1_000_002), &bag));
    let asked = decide_fork(alloc, Pid(2), Some(NodeId(1)), &own, &mut bag, site(0))?;
    assert!(rt; matches!(asked, Outcome::Away(NodeId(1))));
    let group = bag.group(Pid(2)).expect(&rt, "the group");
    assert_eq!(rt; group.members.len(), 2);
    Ok(())
}
