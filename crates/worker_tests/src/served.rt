// Worlds that are served by threads.
use crate::files::{FORK_ELSEWHERE, ONE_EACH, world_of};
use crate::holds::{Leader, Meeting};
use byte_ends::NoHold;
use cluster_core::run;
use node_workers::serve;
use std::test::Fail;
use unix_calls::Turn;
use unix_ops::UnixOps;

#[test]
fn what_was_served_is_the_run_of_its_turns(rt: HostRuntime) -> Result<(), Fail> {
    let alloc = rt.alloc();
    let world = world_of(alloc, FORK_ELSEWHERE).ok_or("a world")?;
    assert!(rt; world.is_valid());
    for workers in [0, 1, 2, 8] {
        let served = serve(&rt, alloc, &world, workers, &NoHold)?;
        assert!(rt; served.is_quiet);
        let again = run(alloc, UnixOps, &world, served.steps.as_slice())?;
        assert!(rt; again.is_quiet && again.entries == served.entries);
        assert_eq!(rt; again.steps.len(), served.steps.len());
        assert_eq!(rt; served.entries.len(), 4);
    }
    Ok(())
}

#[test]
fn two_nodes_are_served_at_once(rt: HostRuntime) -> Result<(), Fail> {
    let alloc = rt.alloc();
    let world = world_of(alloc, ONE_EACH).ok_or("a world")?;
    assert!(rt; world.is_valid());
    let meeting = Meeting::new();
    let served = serve(&rt, alloc, &world, 2, &meeting)?;
    assert!(rt; served.is_quiet && !meeting.has_missed());
    Ok(())
}

#[test]
fn the_node_that_is_let_go_first_has_the_first_turn(rt: HostRuntime) -> Result<(), Fail> {
    let alloc = rt.alloc();
    let world = world_of(alloc, ONE_EACH).ok_or("a world")?;
    assert!(rt; world.is_valid());
    for node in [0, 1] {
        let leader = Leader::new(node);
        let served = serve(&rt, alloc, &world, 1, &leader)?;
        assert!(rt; served.is_quiet && !leader.has_missed());
        assert!(rt; served.steps.first() == Some(&Turn::Go(node)));
    }
    Ok(())
}
