// One node.
use crate::files::{FORK_ELSEWHERE, world_of};
use courier_core::Message;
use node_core::{GoRefusal, Node, TakeRefusal};
use std::test::Fail;
use unix_names::{NodeId, Pid};
use unix_ops::UnixOps;

#[test]
fn a_node_without_starts_is_idle(rt: HostRuntime) -> Result<(), Fail> {
    let alloc = rt.alloc();
    let world = world_of(alloc, FORK_ELSEWHERE).ok_or("a world")?;
    assert!(rt; world.is_valid());
    let first = Node::new(alloc, UnixOps, &world, NodeId(0))?;
    let second = Node::new(alloc, UnixOps, &world, NodeId(1))?;
    assert!(rt; !first.is_idle() && first.ready() == 1);
    assert!(rt; second.is_idle());
    Ok(())
}

#[test]
fn a_node_that_has_failed_answers_no_memory(rt: HostRuntime) -> Result<(), Fail> {
    let alloc = rt.alloc();
    let world = world_of(alloc, FORK_ELSEWHERE).ok_or("a world")?;
    assert!(rt; world.is_valid());
    let mut node = Node::new(alloc, UnixOps, &world, NodeId(0))?;
    node.fail();
    assert!(rt; node.is_idle());
    assert!(rt; matches!(node.go(alloc, &world), Err(GoRefusal::NoMemory)));
    let pushed = node.push(alloc, &world, NodeId(1));
    assert!(rt; matches!(pushed, Err(GoRefusal::NoMemory)));
    let taken = node.take(alloc, &world, NodeId(1), 0, Message::Poke(Pid(2)));
    assert!(rt; matches!(taken, Err(TakeRefusal::NoMemory)));
    Ok(())
}

#[test]
fn the_first_message_of_a_wire_has_number_0(rt: HostRuntime) -> Result<(), Fail> {
    let alloc = rt.alloc();
    let world = world_of(alloc, FORK_ELSEWHERE).ok_or("a world")?;
    assert!(rt; world.is_valid());
    let mut node = Node::new(alloc, UnixOps, &world, NodeId(0))?;
    assert!(rt; node.expects(NodeId(1)) == 0);
    let late = node.take(alloc, &world, NodeId(1), 5, Message::Poke(Pid(2)));
    assert!(rt;
        matches!(
            late,
            Err(TakeRefusal::NotNext {
                expected: 0,
                got: 5
            })
        )
    );
    Ok(())
}
