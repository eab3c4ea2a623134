// Histories, with what the rules say of each entry.
ghost use Rattle.std.specs.Prelude.{IsTrue};
ghost use Rattle.unix_calls.specs.Calls.{IsName, EntryHasNames};

use kernel_model::{Kernel, Rule, Verdict};
use std::alloc::{AllocError, Global};
use std::process::Abort;
use std::test::Fail;
use unix_calls::{Call, Entry, Event, Reply, Start, World};
use unix_names::{Act, Errno, NodeId, Pid, Seq, SigSet, Signal, WaitStatus};

const LEGAL: Verdict = Verdict::Legal;

const UNKNOWN: Verdict = Verdict::Illegal(Rule::UnknownProcess);

const SIGNAL_FIRST: Verdict = Verdict::Illegal(Rule::SignalFirst);

const WRONG_REPLY: Verdict = Verdict::Illegal(Rule::WrongReply);

const WRONG_EVENT: Verdict = Verdict::Illegal(Rule::WrongEvent);

fn is_name(number: i64) -> bool
    ensures { IsTrue result → IsName number }
{
    number >= -4_294_967_295 && number <= 4_294_967_295
}

fn has_names(entry: &Entry) -> bool
    ensures { IsTrue result → EntryHasNames entry.now }
{
    match *entry {
        Entry::Called {
            call: Call::Waitpid { sel, .. },
            ..
        } => is_name(sel),
        Entry::Called {
            call: Call::Kill { target, .. },
            ..
        } => is_name(target),
        Entry::Called {
            call: Call::Setpgid { pgid, .. },
            ..
        } => is_name(pgid),
        _ => true,
    }
}

// Steps through the entries, each of which must get its verdict.
fn run(rt: &impl Abort, kernel: &mut Kernel, history: &[(Entry, Verdict)]) -> Result<(), Fail> {
    for (entry, verdict) in history {
        assert!(rt; has_names(entry));
        assert_eq!(rt; kernel.step(entry)?, *verdict, "{entry:?}");
    }
    Ok(())
}

fn start(pid: u32, uid: u32, joined: Option<usize>) -> Start {
    Start {
        node: NodeId(0),
        script: 0,
        var: 0,
        pid: Pid(pid),
        uid,
        joined,
    }
}

fn booted(alloc: Global, starts: &[Start]) -> Result<Kernel, Fail> {
    let mut world = World {
        nodes: 1,
        vars: 0,
        scripts: Seq::new(alloc),
        starts: Seq::new(alloc),
    };
    for start in starts {
        world.starts.push(*start)?;
    }
    Ok(Kernel::boot(alloc, &world)?)
}

// One process, 2, of the superuser.
fn alone(alloc: Global) -> Result<Kernel, Fail> {
    booted(alloc, &[start(2, 0, None)])
}

fn called(pid: u32, call: Call, reply: Reply) -> Entry {
    Entry::Called {
        caller: Pid(pid),
        call,
        reply,
    }
}

fn fine(pid: u32, call: Call) -> (Entry, Verdict) {
    (called(pid, call, Reply::Fine), LEGAL)
}

fn refused(pid: u32, call: Call, errno: Errno) -> (Entry, Verdict) {
    (called(pid, call, Reply::Refused(errno)), LEGAL)
}

fn number(pid: u32, call: Call, reply: u32) -> (Entry, Verdict) {
    (called(pid, call, Reply::Number(reply)), LEGAL)
}

fn again(pid: u32, call: Call) -> (Entry, Verdict) {
    (called(pid, call, Reply::Again), LEGAL)
}

fn reported(pid: u32, call: Call, child: u32, status: WaitStatus) -> (Entry, Verdict) {
    (called(pid, call, Reply::Child(Pid(child), status)), LEGAL)
}

fn exits(pid: u32, status: u32) -> (Entry, Verdict) {
    (called(pid, Call::Exit(status), Reply::NoReply), LEGAL)
}

fn happened(pid: u32, event: Event) -> (Entry, Verdict) {
    (
        Entry::Happened {
            pid: Pid(pid),
            event,
        },
        LEGAL,
    )
}

fn forged((entry, _): (Entry, Verdict), verdict: Verdict) -> (Entry, Verdict) {
    (entry, verdict)
}

fn wait(sel: i64) -> Call {
    Call::Waitpid {
        sel,
        stopped: false,
        continued: false,
    }
}

fn wait_stopped(sel: i64) -> Call {
    Call::Waitpid {
        sel,
        stopped: true,
        continued: false,
    }
}

fn wait_continued(sel: i64) -> Call {
    Call::Waitpid {
        sel,
        stopped: false,
        continued: true,
    }
}

fn kill(target: i64, sig: u32) -> Call {
    Call::Kill { target, sig }
}

fn setpgid(pid: u32, pgid: i64) -> Call {
    Call::Setpgid { pid, pgid }
}

fn action(sig: u32, act: Act) -> Call {
    Call::Action { sig, act }
}

const HUP: u32 = 1;

const INT: u32 = 2;

const KILL: u32 = 9;

const USR1: u32 = 10;

const TERM: u32 = 15;

const CHLD: u32 = 17;

const CONT: u32 = 18;

const STOP: u32 = 19;

const TSTP: u32 = 20;

// The low eight bits of a status; and a history that is forged at each place.
#[test]
fn reports_an_end(rt: HostRuntime) -> Result<(), Fail> {
    let mut kernel = alone(rt.alloc())?;
    run(
        &rt,
        &mut kernel,
        &[
            forged(number(3, Call::Getpid, 3), UNKNOWN),
            forged(number(2, Call::Fork, 2), WRONG_REPLY),
            forged(number(2, Call::Fork, 1), WRONG_REPLY),
            forged(number(2, Call::Fork, 999_999), WRONG_REPLY),
            forged(refused(2, Call::Fork, Errno::EAGAIN), WRONG_REPLY),
            number(2, Call::Fork, 3),
            forged(refused(2, wait(-1), Errno::ECHILD), WRONG_REPLY),
            again(2, wait(-1)),
            exits(3, 263),
            forged(number(3, Call::Getpid, 3), UNKNOWN),
            forged(again(2, wait(-1)), WRONG_REPLY),
            forged(reported(2, wait(-1), 3, WaitStatus::Exited(8)), WRONG_REPLY),
            reported(2, wait(-1), 3, WaitStatus::Exited(7)),
            refused(2, wait(-1), Errno::ECHILD),
            forged(happened(2, Event::Continued), WRONG_EVENT),
            forged(fine(2, Call::Exit(0)), WRONG_REPLY),
            exits(2, 0),
            forged(happened(2, Event::Moved), UNKNOWN),
        ],
    )
}

// Pids that rise are found by halves, and others by looking at each row.
#[test]
fn pids_in_any_order(rt: HostRuntime) -> Result<(), Fail> {
    let mut kernel = alone(rt.alloc())?;
    run(
        &rt,
        &mut kernel,
        &[
            number(2, Call::Fork, 1_000_001),
            again(2, wait(1_000_001)),
            number(2, Call::Fork, 7),
            again(2, wait(-1)),
            refused(2, wait(8), Errno::ECHILD),
            exits(7, 3),
            forged(again(2, wait(7)), WRONG_REPLY),
            again(2, wait(1_000_001)),
            reported(2, wait(-1), 7, WaitStatus::Exited(3)),
            number(2, Call::Fork, 1_000_002),
            exits(1_000_001, 0),
            reported(2, wait(0), 1_000_001, WaitStatus::Exited(0)),
            again(2, wait(-1)),
        ],
    )
}

// A group is asked for, and then no longer what it was.
#[test]
fn a_group_becomes_orphaned(rt: HostRuntime) -> Result<(), Fail> {
    let mut kernel = alone(rt.alloc())?;
    run(
        &rt,
        &mut kernel,
        &[
            number(2, Call::Fork, 3),
            number(3, Call::Fork, 4),
            fine(4, setpgid(0, 0)),
            fine(3, kill(4, TSTP)),
            forged(happened(4, Event::Discarded(Signal::Tstp)), WRONG_EVENT),
            happened(4, Event::StoppedBy(Signal::Tstp)),
            fine(3, kill(4, CONT)),
            happened(4, Event::Continued),
            exits(3, 0),
            fine(2, kill(4, TSTP)),
            forged(happened(4, Event::StoppedBy(Signal::Tstp)), WRONG_EVENT),
            happened(4, Event::Discarded(Signal::Tstp)),
        ],
    )
}

#[test]
fn has_64_children(rt: HostRuntime) -> Result<(), Fail> {
    let mut kernel = alone(rt.alloc())?;
    for child in 3..67 {
        run(&rt, &mut kernel, &[number(2, Call::Fork, child)])?;
    }
    run(
        &rt,
        &mut kernel,
        &[
            forged(number(2, Call::Fork, 67), WRONG_REPLY),
            refused(2, Call::Fork, Errno::EAGAIN),
            exits(3, 0),
            refused(2, Call::Fork, Errno::EAGAIN),
            reported(2, wait(-1), 3, WaitStatus::Exited(0)),
            number(2, Call::Fork, 67),
        ],
    )
}

#[test]
fn refuses_setpgid(rt: HostRuntime) -> Result<(), Fail> {
    let mut kernel = alone(rt.alloc())?;
    run(
        &rt,
        &mut kernel,
        &[
            refused(2, setpgid(0, 0), Errno::EPERM),
            number(2, Call::Fork, 3),
            number(2, Call::Fork, 4),
            fine(3, Call::Exec),
            number(2, Call::Fork, 5),
            number(4, Call::Setsid, 4),
            fine(3, kill(3, STOP)),
            forged(refused(2, setpgid(3, 3), Errno::EPERM), WRONG_REPLY),
            refused(2, setpgid(3, 3), Errno::EACCES),
            fine(5, kill(5, STOP)),
            fine(4, kill(4, STOP)),
            happened(3, Event::StoppedBy(Signal::Stop)),
            refused(2, setpgid(4, 4), Errno::EPERM),
            happened(5, Event::StoppedBy(Signal::Stop)),
            happened(4, Event::StoppedBy(Signal::Stop)),
            refused(2, setpgid(5, 4), Errno::EPERM),
            refused(2, setpgid(5, -1), Errno::EINVAL),
            refused(2, setpgid(1, 0), Errno::ESRCH),
            exits(2, 0),
        ],
    )
}

#[test]
fn begins_a_session(rt: HostRuntime) -> Result<(), Fail> {
    let mut kernel = alone(rt.alloc())?;
    run(
        &rt,
        &mut kernel,
        &[
            refused(2, Call::Setsid, Errno::EPERM),
            number(2, Call::Fork, 3),
            again(2, wait(0)),
            number(3, Call::Setsid, 3),
            number(3, Call::Getpgid(0), 3),
            refused(2, wait(0), Errno::ECHILD),
            number(3, Call::Getsid(0), 3),
            number(2, Call::Getsid(3), 3),
            exits(2, 0),
            number(3, Call::Getppid, 1),
            exits(3, 0),
        ],
    )
}

// The end of 2 leaves the group of 3 orphaned, with a stopped member.
#[test]
fn wakes_the_newly_orphaned(rt: HostRuntime) -> Result<(), Fail> {
    let mut kernel = alone(rt.alloc())?;
    run(
        &rt,
        &mut kernel,
        &[
            number(2, Call::Fork, 3),
            fine(2, setpgid(3, 3)),
            fine(3, kill(3, STOP)),
            again(2, wait_stopped(3)),
            happened(3, Event::StoppedBy(Signal::Stop)),
            forged(number(3, Call::Getpid, 3), SIGNAL_FIRST),
            forged(happened(3, Event::Moved), SIGNAL_FIRST),
            again(2, wait(3)),
            reported(2, wait_stopped(3), 3, WaitStatus::Stopped(Signal::Stop)),
            again(2, wait_stopped(3)),
            exits(2, 0),
            forged(happened(3, Event::EndedBy(Signal::Hup)), WRONG_EVENT),
            happened(3, Event::Continued),
            forged(number(3, Call::Getpid, 3), SIGNAL_FIRST),
            forged(happened(3, Event::Caught(Signal::Hup)), WRONG_EVENT),
            happened(3, Event::EndedBy(Signal::Hup)),
            forged(happened(3, Event::EndedBy(Signal::Hup)), UNKNOWN),
        ],
    )
}

// The end of 3 leaves its own group orphaned, with its stopped child.
#[test]
fn wakes_the_rest_of_the_group(rt: HostRuntime) -> Result<(), Fail> {
    let mut kernel = alone(rt.alloc())?;
    run(
        &rt,
        &mut kernel,
        &[
            number(2, Call::Fork, 3),
            fine(2, setpgid(3, 3)),
            number(3, Call::Fork, 4),
            fine(3, kill(4, STOP)),
            happened(4, Event::StoppedBy(Signal::Stop)),
            exits(3, 0),
            happened(4, Event::Continued),
            happened(4, Event::EndedBy(Signal::Hup)),
        ],
    )
}

// The group of 3 is orphaned from the first, so the end of 2 wakes nobody, and the stop of a terminal is spared it.
#[test]
fn leaves_the_long_orphaned(rt: HostRuntime) -> Result<(), Fail> {
    let mut kernel = booted(rt.alloc(), &[start(2, 0, None), start(3, 0, None)])?;
    run(
        &rt,
        &mut kernel,
        &[
            fine(2, kill(3, TSTP)),
            forged(happened(3, Event::StoppedBy(Signal::Tstp)), WRONG_EVENT),
            happened(3, Event::Discarded(Signal::Tstp)),
            fine(2, kill(3, STOP)),
            happened(3, Event::StoppedBy(Signal::Stop)),
            exits(2, 0),
            forged(happened(3, Event::Continued), WRONG_EVENT),
        ],
    )
}

#[test]
fn vanishes_where_ignored(rt: HostRuntime) -> Result<(), Fail> {
    let mut kernel = alone(rt.alloc())?;
    run(
        &rt,
        &mut kernel,
        &[
            fine(2, action(CHLD, Act::Ignore)),
            number(2, Call::Fork, 3),
            again(2, wait(-1)),
            exits(3, 0),
            refused(2, wait(-1), Errno::ECHILD),
            exits(2, 0),
        ],
    )
}

#[test]
fn knows_the_ended(rt: HostRuntime) -> Result<(), Fail> {
    let mut kernel = alone(rt.alloc())?;
    run(
        &rt,
        &mut kernel,
        &[
            number(2, Call::Fork, 3),
            number(2, Call::Getpid, 2),
            exits(3, 0),
            fine(2, kill(3, TERM)),
            number(2, Call::Getpgid(3), 2),
            refused(2, setpgid(3, 3), Errno::ESRCH),
            reported(2, wait(3), 3, WaitStatus::Exited(0)),
            refused(2, kill(3, TERM), Errno::ESRCH),
            refused(2, Call::Getpgid(3), Errno::ESRCH),
            exits(2, 0),
        ],
    )
}

#[test]
fn answers_odd_targets(rt: HostRuntime) -> Result<(), Fail> {
    let mut kernel = alone(rt.alloc())?;
    run(
        &rt,
        &mut kernel,
        &[
            fine(2, kill(2, 0)),
            refused(2, kill(2, 77), Errno::EINVAL),
            refused(2, kill(999_999, TERM), Errno::ESRCH),
            refused(2, kill(1, TERM), Errno::EPERM),
            refused(2, kill(1, 77), Errno::EINVAL),
            refused(2, kill(-999_999, 0), Errno::ESRCH),
            refused(2, kill(-1, TERM), Errno::ESRCH),
            refused(2, action(KILL, Act::Ignore), Errno::EINVAL),
            refused(2, Call::Getpgid(1), Errno::EPERM),
            exits(2, 0),
        ],
    )
}

// A stop and a continuing cross: the second child takes the continue signal before it stops.
#[test]
fn stops_and_continues(rt: HostRuntime) -> Result<(), Fail> {
    let mut kernel = alone(rt.alloc())?;
    run(
        &rt,
        &mut kernel,
        &[
            number(2, Call::Fork, 1_000_002),
            number(2, Call::Fork, 1_000_003),
            fine(2, setpgid(1_000_002, 1_000_002)),
            fine(2, setpgid(1_000_003, 1_000_002)),
            fine(2, kill(-1_000_002, TSTP)),
            fine(2, kill(1_000_003, CONT)),
            again(2, wait_stopped(-1)),
            happened(1_000_002, Event::StoppedBy(Signal::Tstp)),
            reported(
                2,
                wait_stopped(-1),
                1_000_002,
                WaitStatus::Stopped(Signal::Tstp),
            ),
            fine(2, kill(1_000_002, CONT)),
            again(2, wait(-1)),
            number(1_000_003, Call::Getpid, 1_000_003),
            happened(1_000_002, Event::Continued),
            again(2, wait(-1)),
            reported(
                2,
                wait_continued(-1_000_002),
                1_000_002,
                WaitStatus::Continued,
            ),
            again(2, wait_continued(-1)),
            exits(1_000_003, 0),
            reported(2, wait(-1), 1_000_003, WaitStatus::Exited(0)),
            number(1_000_002, Call::Getpid, 1_000_002),
            exits(1_000_002, 0),
            reported(2, wait(-1), 1_000_002, WaitStatus::Exited(0)),
            exits(2, 0),
        ],
    )
}

// A child of another group keeps a signal of its old one; exec drops what was caught.
#[test]
fn keeps_what_is_pending(rt: HostRuntime) -> Result<(), Fail> {
    let usr1 = SigSet::empty().with(Signal::Usr1);
    let mut kernel = alone(rt.alloc())?;
    run(
        &rt,
        &mut kernel,
        &[
            (
                called(2, Call::Mask(usr1), Reply::Set(SigSet::empty())),
                LEGAL,
            ),
            number(2, Call::Fork, 3),
            fine(2, kill(0, USR1)),
            fine(2, setpgid(3, 3)),
            again(2, wait(3)),
            fine(3, action(USR1, Act::Catch)),
            (called(3, Call::Pending, Reply::Set(usr1)), LEGAL),
            (
                called(3, Call::Mask(SigSet::empty()), Reply::Set(usr1)),
                LEGAL,
            ),
            forged(fine(3, Call::Exec), SIGNAL_FIRST),
            happened(3, Event::Caught(Signal::Usr1)),
            (called(3, Call::Pending, Reply::Set(SigSet::empty())), LEGAL),
            fine(3, Call::Exec),
            fine(3, kill(3, USR1)),
            forged(happened(3, Event::Caught(Signal::Usr1)), WRONG_EVENT),
            happened(3, Event::EndedBy(Signal::Usr1)),
            reported(2, wait(3), 3, WaitStatus::Killed(Signal::Usr1)),
        ],
    )
}

// 3 and 5 share a group and a session; 4 and 5 are of one user, 2 of the superuser.
#[test]
fn asks_who_may_signal(rt: HostRuntime) -> Result<(), Fail> {
    let starts = [
        start(2, 0, None),
        start(3, 5, None),
        start(4, 6, None),
        start(5, 6, Some(1)),
    ];
    let mut kernel = booted(rt.alloc(), &starts)?;
    run(
        &rt,
        &mut kernel,
        &[
            number(5, Call::Getpgid(0), 3),
            number(5, Call::Getsid(0), 3),
            refused(3, kill(4, TERM), Errno::EPERM),
            refused(3, kill(4, CONT), Errno::EPERM),
            refused(3, kill(4, 0), Errno::EPERM),
            refused(3, kill(5, 0), Errno::EPERM),
            fine(3, kill(5, CONT)),
            fine(4, kill(5, 0)),
            fine(5, action(HUP, Act::Catch)),
            fine(5, kill(0, HUP)),
            number(3, Call::Getpid, 3),
            happened(5, Event::Caught(Signal::Hup)),
            fine(4, kill(-3, INT)),
            number(3, Call::Getpid, 3),
            number(4, Call::Fork, 6),
            exits(6, 0),
            refused(3, kill(6, TERM), Errno::EPERM),
            fine(2, kill(6, TERM)),
            happened(5, Event::EndedBy(Signal::Int)),
            refused(4, kill(-3, TERM), Errno::EPERM),
            fine(2, kill(-3, TERM)),
            happened(3, Event::EndedBy(Signal::Term)),
        ],
    )
}

// A start may join one that joins another.
#[test]
fn boots_joined_starts(rt: HostRuntime) -> Result<(), Fail> {
    let starts = [
        start(2, 0, None),
        start(3, 1, Some(0)),
        start(1_000_002, 2, Some(1)),
    ];
    let kernel = booted(rt.alloc(), &starts)?;
    assert_eq!(rt; kernel.rows().len(), 3);
    for row in kernel.rows() {
        assert_eq!(rt; row.group, Pid(2));
        assert_eq!(rt; row.session, Pid(2));
        assert_eq!(rt; row.parent, Pid(1));
    }
    Ok(())
}
