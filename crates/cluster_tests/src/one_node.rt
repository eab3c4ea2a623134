// Whole histories of worlds on one node.
use crate::runs::played;
use std::alloc::{AllocError, Global};
use std::process::Abort;
use std::test::Fail;
use unix_calls::{Arg, Call, Entry, Event, Reply, Script, Start, Statement, Turn, World};
use unix_names::{Act, Errno, NodeId, Pid, Seq, Signal, WaitStatus};

const STOP: u32 = 19;

const TERM: u32 = 15;

const CONT: u32 = 18;

const SELF_STOP: Statement = Statement::Kill {
    minus: false,
    arg: Arg::Own,
    sig: STOP,
};

fn fork(var: usize, script: usize) -> Statement {
    Statement::Fork {
        var,
        script,
        at: None,
    }
}

fn wait_any(sleeps: bool) -> Statement {
    Statement::Wait {
        sleeps,
        any: true,
        minus: false,
        arg: Arg::Zero,
        stopped: false,
        continued: false,
    }
}

fn wait_for(arg: Arg, stopped: bool) -> Statement {
    Statement::Wait {
        sleeps: true,
        any: false,
        minus: false,
        arg,
        stopped,
        continued: false,
    }
}

fn kill(arg: Arg, sig: u32) -> Statement {
    Statement::Kill {
        minus: false,
        arg,
        sig,
    }
}

fn setpgid(pid: Arg, pgid: Arg) -> Statement {
    Statement::Setpgid {
        pid,
        minus: false,
        pgid,
    }
}

fn add_script(
    alloc: Global,
    scripts: &mut Seq<Script>,
    statements: &[Statement],
) -> Result<(), AllocError> {
    let statements = Seq::from_slice(alloc, statements)?;
    scripts.push(Script { statements })
}

// One start, of the last script.
fn world(alloc: Global, scripts: Seq<Script>) -> Result<World, AllocError> {
    let start = Start {
        node: NodeId(0),
        script: scripts.len().saturating_sub(1),
        var: 0,
        pid: Pid(2),
        uid: 0,
        joined: None,
    };
    Ok(World {
        nodes: 1,
        vars: 4,
        scripts,
        starts: Seq::from_slice(alloc, &[start])?,
    })
}

fn called(pid: u32, call: Call, reply: Reply) -> Entry {
    Entry::Called {
        caller: Pid(pid),
        call,
        reply,
    }
}

fn fine(pid: u32, call: Call) -> Entry {
    called(pid, call, Reply::Fine)
}

fn number(pid: u32, call: Call, reply: u32) -> Entry {
    called(pid, call, Reply::Number(reply))
}

fn refused(pid: u32, call: Call, errno: Errno) -> Entry {
    called(pid, call, Reply::Refused(errno))
}

fn exits(pid: u32, status: u32) -> Entry {
    called(pid, Call::Exit(status), Reply::NoReply)
}

fn happened(pid: u32, event: Event) -> Entry {
    Entry::Happened {
        pid: Pid(pid),
        event,
    }
}

fn waits(pid: u32, sel: i64, stopped: bool, reply: Reply) -> Entry {
    let call = Call::Waitpid {
        sel,
        stopped,
        continued: false,
    };
    called(pid, call, reply)
}

fn kills(pid: u32, target: i64, sig: u32, reply: Reply) -> Entry {
    called(pid, Call::Kill { target, sig }, reply)
}

fn groups(pid: u32, number: u32, pgid: i64, reply: Reply) -> Entry {
    let call = Call::Setpgid { pid: number, pgid };
    called(pid, call, reply)
}

// The history of 200 turns is this one, and quiet.
fn check(
    rt: &impl Abort,
    alloc: Global,
    scripts: Seq<Script>,
    history: &[Entry],
) -> Result<(), Fail> {
    let world = world(alloc, scripts)?;
    assert!(rt; world.is_valid() && world.nodes == 1);
    let run = played(alloc, &world, &[Turn::Auto(200)])?.ok_or("a run")?;
    assert_eq!(rt; run.entries.as_slice(), history);
    assert!(rt; run.is_quiet);
    Ok(())
}

#[test]
fn a_status_has_eight_bits(rt: HostRuntime) -> Result<(), Fail> {
    let alloc = rt.alloc();
    let mut scripts = Seq::new(alloc);
    add_script(alloc, &mut scripts, &[Statement::Exit(263)])?;
    add_script(alloc, &mut scripts, &[fork(1, 0), wait_any(true)])?;
    let history = [
        number(2, Call::Fork, 3),
        waits(2, -1, false, Reply::Again),
        exits(3, 263),
        waits(2, -1, false, Reply::Child(Pid(3), WaitStatus::Exited(7))),
        exits(2, 0),
    ];
    check(&rt, alloc, scripts, history.as_slice())
}

#[test]
fn forks_64_children(rt: HostRuntime) -> Result<(), Fail> {
    let alloc = rt.alloc();
    let mut statements = Vec::new(alloc);
    for _ in 0..65 {
        statements.push(fork(1, 0))?;
    }
    statements.push(wait_any(true))?;
    statements.push(fork(1, 0))?;
    let mut scripts = Seq::new(alloc);
    add_script(alloc, &mut scripts, &[])?;
    add_script(alloc, &mut scripts, statements.as_slice())?;
    let world = world(alloc, scripts)?;
    assert!(rt; world.is_valid() && world.nodes == 1);
    let run = played(alloc, &world, &[Turn::Auto(1000)])?.ok_or("a run")?;
    let entries = run.entries.as_slice();
    assert!(rt; run.is_quiet);
    assert_eq!(rt; entries.len(), 133);
    assert!(rt; entries.contains(&number(2, Call::Fork, 3)));
    assert!(rt; entries.contains(&number(2, Call::Fork, 66)));
    assert!(rt; entries.contains(&refused(2, Call::Fork, Errno::EAGAIN)));
    let first = waits(2, -1, false, Reply::Child(Pid(3), WaitStatus::Exited(0)));
    assert!(rt; entries.contains(&first));
    assert!(rt; entries.contains(&number(2, Call::Fork, 67)));
    Ok(())
}

#[test]
fn setpgid_is_refused(rt: HostRuntime) -> Result<(), Fail> {
    let alloc = rt.alloc();
    let mut scripts = Seq::new(alloc);
    add_script(alloc, &mut scripts, &[SELF_STOP])?;
    add_script(alloc, &mut scripts, &[Statement::Exec(0)])?;
    add_script(alloc, &mut scripts, &[Statement::Setsid, SELF_STOP])?;
    let minus_one = Statement::Setpgid {
        pid: Arg::Var(3),
        minus: true,
        pgid: Arg::One,
    };
    let top = [
        setpgid(Arg::Zero, Arg::Zero),
        fork(1, 1),
        fork(2, 2),
        fork(3, 0),
        setpgid(Arg::Var(1), Arg::Var(1)),
        setpgid(Arg::Var(2), Arg::Var(2)),
        setpgid(Arg::Var(3), Arg::Var(2)),
        minus_one,
        setpgid(Arg::One, Arg::Zero),
    ];
    add_script(alloc, &mut scripts, top.as_slice())?;
    let history = [
        groups(2, 0, 0, Reply::Refused(Errno::EPERM)),
        number(2, Call::Fork, 3),
        number(2, Call::Fork, 4),
        fine(3, Call::Exec),
        number(2, Call::Fork, 5),
        number(4, Call::Setsid, 4),
        kills(3, 3, STOP, Reply::Fine),
        groups(2, 3, 3, Reply::Refused(Errno::EACCES)),
        kills(5, 5, STOP, Reply::Fine),
        kills(4, 4, STOP, Reply::Fine),
        happened(3, Event::StoppedBy(Signal::Stop)),
        groups(2, 4, 4, Reply::Refused(Errno::EPERM)),
        happened(5, Event::StoppedBy(Signal::Stop)),
        happened(4, Event::StoppedBy(Signal::Stop)),
        groups(2, 5, 4, Reply::Refused(Errno::EPERM)),
        groups(2, 5, -1, Reply::Refused(Errno::EINVAL)),
        groups(2, 1, 0, Reply::Refused(Errno::ESRCH)),
        exits(2, 0),
    ];
    check(&rt, alloc, scripts, history.as_slice())
}

#[test]
fn setsid_leaves_the_group(rt: HostRuntime) -> Result<(), Fail> {
    let alloc = rt.alloc();
    let mut scripts = Seq::new(alloc);
    let kid = [
        Statement::Setsid,
        Statement::Getpgid(Arg::Zero),
        Statement::Getsid(Arg::Zero),
    ];
    add_script(alloc, &mut scripts, kid.as_slice())?;
    let top = [Statement::Setsid, fork(1, 0), wait_for(Arg::Zero, false)];
    add_script(alloc, &mut scripts, top.as_slice())?;
    let history = [
        refused(2, Call::Setsid, Errno::EPERM),
        number(2, Call::Fork, 3),
        waits(2, 0, false, Reply::Again),
        number(3, Call::Setsid, 3),
        number(3, Call::Getpgid(0), 3),
        waits(2, 0, false, Reply::Refused(Errno::ECHILD)),
        number(3, Call::Getsid(0), 3),
        exits(2, 0),
        exits(3, 0),
    ];
    check(&rt, alloc, scripts, history.as_slice())
}

#[test]
fn a_newly_orphaned_group_is_hung_up(rt: HostRuntime) -> Result<(), Fail> {
    let alloc = rt.alloc();
    let mut scripts = Seq::new(alloc);
    add_script(alloc, &mut scripts, &[SELF_STOP, Statement::Getpid])?;
    let top = [
        fork(1, 0),
        setpgid(Arg::Var(1), Arg::Var(1)),
        wait_for(Arg::Var(1), true),
    ];
    add_script(alloc, &mut scripts, top.as_slice())?;
    let history = [
        number(2, Call::Fork, 3),
        groups(2, 3, 3, Reply::Fine),
        kills(3, 3, STOP, Reply::Fine),
        waits(2, 3, true, Reply::Again),
        happened(3, Event::StoppedBy(Signal::Stop)),
        waits(
            2,
            3,
            true,
            Reply::Child(Pid(3), WaitStatus::Stopped(Signal::Stop)),
        ),
        exits(2, 0),
        happened(3, Event::Continued),
        happened(3, Event::EndedBy(Signal::Hup)),
    ];
    check(&rt, alloc, scripts, history.as_slice())
}

#[test]
fn an_ignored_child_vanishes(rt: HostRuntime) -> Result<(), Fail> {
    let alloc = rt.alloc();
    let mut scripts = Seq::new(alloc);
    add_script(alloc, &mut scripts, &[])?;
    let ignore = Statement::Action {
        sig: 17,
        act: Act::Ignore,
    };
    add_script(alloc, &mut scripts, &[ignore, fork(1, 0), wait_any(true)])?;
    let ignores = Call::Action {
        sig: 17,
        act: Act::Ignore,
    };
    let history = [
        fine(2, ignores),
        number(2, Call::Fork, 3),
        waits(2, -1, false, Reply::Again),
        exits(3, 0),
        waits(2, -1, false, Reply::Refused(Errno::ECHILD)),
        exits(2, 0),
    ];
    check(&rt, alloc, scripts, history.as_slice())
}

#[test]
fn an_ended_child_is_waited_for(rt: HostRuntime) -> Result<(), Fail> {
    let alloc = rt.alloc();
    let mut scripts = Seq::new(alloc);
    add_script(alloc, &mut scripts, &[])?;
    let top = [
        fork(1, 0),
        Statement::Getpid,
        kill(Arg::Var(1), TERM),
        wait_for(Arg::Var(1), false),
        kill(Arg::Var(1), TERM),
        Statement::Getpgid(Arg::Var(1)),
    ];
    add_script(alloc, &mut scripts, top.as_slice())?;
    let history = [
        number(2, Call::Fork, 3),
        number(2, Call::Getpid, 2),
        exits(3, 0),
        kills(2, 3, TERM, Reply::Fine),
        waits(2, 3, false, Reply::Child(Pid(3), WaitStatus::Exited(0))),
        kills(2, 3, TERM, Reply::Refused(Errno::ESRCH)),
        refused(2, Call::Getpgid(3), Errno::ESRCH),
        exits(2, 0),
    ];
    check(&rt, alloc, scripts, history.as_slice())
}

#[test]
fn odd_targets_are_refused(rt: HostRuntime) -> Result<(), Fail> {
    let alloc = rt.alloc();
    let mut scripts = Seq::new(alloc);
    let group = Statement::Kill {
        minus: true,
        arg: Arg::Nobody,
        sig: 0,
    };
    let ignore = Statement::Action {
        sig: 9,
        act: Act::Ignore,
    };
    let top = [
        kill(Arg::Own, 0),
        kill(Arg::Own, 77),
        kill(Arg::Nobody, TERM),
        kill(Arg::One, TERM),
        group,
        ignore,
        Statement::Getpgid(Arg::One),
    ];
    add_script(alloc, &mut scripts, top.as_slice())?;
    let ignores = Call::Action {
        sig: 9,
        act: Act::Ignore,
    };
    let history = [
        kills(2, 2, 0, Reply::Fine),
        kills(2, 2, 77, Reply::Refused(Errno::EINVAL)),
        kills(2, 999_999, TERM, Reply::Refused(Errno::ESRCH)),
        kills(2, 1, TERM, Reply::Refused(Errno::EPERM)),
        kills(2, -999_999, 0, Reply::Refused(Errno::ESRCH)),
        refused(2, ignores, Errno::EINVAL),
        refused(2, Call::Getpgid(1), Errno::EPERM),
        exits(2, 0),
    ];
    check(&rt, alloc, scripts, history.as_slice())
}

#[test]
fn a_stopped_child_is_continued_and_killed(rt: HostRuntime) -> Result<(), Fail> {
    let alloc = rt.alloc();
    let mut scripts = Seq::new(alloc);
    add_script(alloc, &mut scripts, &[SELF_STOP, wait_any(true)])?;
    let top = [
        fork(1, 0),
        wait_for(Arg::Var(1), true),
        kill(Arg::Var(1), CONT),
        kill(Arg::Var(1), 9),
        wait_for(Arg::Var(1), false),
    ];
    add_script(alloc, &mut scripts, top.as_slice())?;
    let history = [
        number(2, Call::Fork, 3),
        waits(2, 3, true, Reply::Again),
        kills(3, 3, STOP, Reply::Fine),
        happened(3, Event::StoppedBy(Signal::Stop)),
        waits(
            2,
            3,
            true,
            Reply::Child(Pid(3), WaitStatus::Stopped(Signal::Stop)),
        ),
        kills(2, 3, CONT, Reply::Fine),
        kills(2, 3, 9, Reply::Fine),
        happened(3, Event::EndedBy(Signal::Kill)),
        waits(
            2,
            3,
            false,
            Reply::Child(Pid(3), WaitStatus::Killed(Signal::Kill)),
        ),
        exits(2, 0),
    ];
    check(&rt, alloc, scripts, history.as_slice())
}

#[test]
fn a_push_moves(rt: HostRuntime) -> Result<(), Fail> {
    let alloc = rt.alloc();
    let mut scripts = Seq::new(alloc);
    add_script(alloc, &mut scripts, &[Statement::Getpid])?;
    let world = world(alloc, scripts)?;
    assert!(rt; world.is_valid() && world.nodes == 1);
    let schedule = [Turn::Push(0, 0), Turn::Go(1), Turn::Auto(20)];
    let pushed = played(alloc, &world, &schedule)?.ok_or("a run")?;
    let history = [
        happened(2, Event::Moved),
        number(2, Call::Getpid, 2),
        exits(2, 0),
    ];
    assert_eq!(rt; pushed.entries.as_slice(), history.as_slice());
    assert!(rt; pushed.is_quiet);
    let open = played(alloc, &world, &[Turn::Take(0, 1), Turn::Go(0)])?.ok_or("a run")?;
    assert_eq!(rt;
        open.entries.as_slice(),
        [number(2, Call::Getpid, 2)].as_slice()
    );
    assert!(rt; !open.is_quiet);
    Ok(())
}
