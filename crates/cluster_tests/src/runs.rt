// Schedules of two nodes.
use crate::files::{FORK_ELSEWHERE, world_of};
use cluster_core::{Played, run};
use std::alloc::Global;
use std::test::Fail;
use unix_calls::{Call, Entry, Reply, Turn, World};
use unix_names::{NoMemory, Pid, WaitStatus};
use unix_ops::UnixOps;

const KID: Pid = Pid(1_000_002);

// What a schedule comes to; None where the world is none that can be run.
#[tactic(auto, using(crate::proofs::Deciding::decides))]
pub fn played(alloc: Global, world: &World, schedule: &[Turn]) -> Result<Option<Played>, NoMemory> {
    if world.is_valid() {
        Ok(Some(run(alloc, UnixOps, world, schedule)?))
    } else {
        Ok(None)
    }
}

fn line(caller: u32, call: Call, reply: Reply) -> Entry {
    Entry::Called {
        caller: Pid(caller),
        call,
        reply,
    }
}

fn forked() -> Entry {
    line(2, Call::Fork, Reply::Number(KID.0))
}

// The parent asks for any child, and goes on whatever the answer.
fn polled(reply: Reply) -> Entry {
    let call = Call::Waitpid {
        sel: -1,
        stopped: false,
        continued: false,
    };
    line(2, call, reply)
}

fn exited(pid: u32, code: u32) -> Entry {
    line(pid, Call::Exit(code), Reply::NoReply)
}

// By the rule of auto node 0 goes on while it can, so the parent polls and ends before its child had a turn.
#[test]
fn by_auto_the_parent_asks_too_early(rt: HostRuntime) -> Result<(), Fail> {
    let alloc = rt.alloc();
    let world = world_of(alloc, FORK_ELSEWHERE).ok_or("a world")?;
    let played = played(alloc, &world, &[Turn::Auto(100)])?.ok_or("a run")?;
    let history = [
        forked(),
        polled(Reply::Again),
        exited(2, 0),
        exited(KID.0, 7),
    ];
    assert_eq!(rt; played.entries.as_slice(), history.as_slice());
    assert!(rt; played.is_quiet);
    Ok(())
}

// The answer to the fork is still on its way when the child goes, so the parent finds it ended.
#[test]
fn with_the_answer_on_its_way_the_child_ends_first(rt: HostRuntime) -> Result<(), Fail> {
    let alloc = rt.alloc();
    let world = world_of(alloc, FORK_ELSEWHERE).ok_or("a world")?;
    let schedule = [Turn::Go(0), Turn::Take(1, 0), Turn::Go(1), Turn::Auto(100)];
    let played = played(alloc, &world, &schedule)?.ok_or("a run")?;
    let history = [
        forked(),
        exited(KID.0, 7),
        polled(Reply::Child(KID, WaitStatus::Exited(7))),
        exited(2, 0),
    ];
    assert_eq!(rt; played.entries.as_slice(), history.as_slice());
    assert!(rt; played.is_quiet);
    Ok(())
}

// The first turn sends the fork to the child's node, and adds no line; there it is decided by the second.
#[test]
fn a_line_has_the_number_of_its_turn(rt: HostRuntime) -> Result<(), Fail> {
    let alloc = rt.alloc();
    let world = world_of(alloc, FORK_ELSEWHERE).ok_or("a world")?;
    let schedule = [Turn::Go(0), Turn::Take(1, 0)];
    let played = played(alloc, &world, &schedule)?.ok_or("a run")?;
    assert_eq!(rt; played.entries.as_slice(), [forked()].as_slice());
    assert_eq!(rt; played.numbers.as_slice(), [1].as_slice());
    assert_eq!(rt; played.steps.as_slice(), schedule.as_slice());
    assert!(rt; !played.is_quiet);
    Ok(())
}

// No message is on its way, nobody is ready at node 1, and there is no node 2.
#[test]
fn turns_that_are_not_possible_do_nothing(rt: HostRuntime) -> Result<(), Fail> {
    let alloc = rt.alloc();
    let world = world_of(alloc, FORK_ELSEWHERE).ok_or("a world")?;
    let schedule = [
        Turn::Take(0, 1),
        Turn::Go(1),
        Turn::Push(1, 0),
        Turn::Push(0, 2),
        Turn::Go(2),
        Turn::Take(1, 2),
        Turn::Go(0),
        Turn::Go(0),
    ];
    let played = played(alloc, &world, &schedule)?.ok_or("a run")?;
    assert!(rt; played.entries.is_empty());
    assert_eq!(rt; played.steps.as_slice(), [Turn::Go(0)].as_slice());
    Ok(())
}
