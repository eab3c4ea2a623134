// Worked histories, with what the judge says of each.
ghost use Rattle.std.specs.Prelude.{IsTrue, All};
ghost use Rattle.unix_calls.specs.Calls.{IsName, EntryHasNames};

use audit_core::{Breach, Judged, audit};
use std::alloc::{AllocError, Global};
use std::process::Abort;
use std::test::Fail;
use unix_calls::{Arg, Call, Entry, Event, Reply, Script, Start, Statement, World};
use unix_names::{NodeId, Pid, Seq, Signal, WaitStatus};

const FORK: Statement = Statement::Fork {
    var: 0,
    script: 0,
    at: None,
};

const WAIT_ANY: Statement = Statement::Wait {
    sleeps: true,
    any: true,
    minus: false,
    arg: Arg::Zero,
    stopped: false,
    continued: false,
};

// A process, 2, that runs these statements; the script of its children is `exit 263`.
fn world(alloc: Global, statements: &[Statement]) -> Result<World, AllocError> {
    let child = Script {
        statements: Seq::from_slice(alloc, &[Statement::Exit(263)])?,
    };
    let top = Script {
        statements: Seq::from_slice(alloc, statements)?,
    };
    let mut scripts = Seq::new(alloc);
    scripts.push(child)?;
    scripts.push(top)?;
    let start = Start {
        node: NodeId(0),
        script: 1,
        var: 1,
        pid: Pid(2),
        uid: 0,
        joined: None,
    };
    Ok(World {
        nodes: 1,
        vars: 2,
        scripts,
        starts: Seq::from_slice(alloc, &[start])?,
    })
}

fn called(pid: u32, call: Call, reply: Reply) -> Entry {
    Entry::Called {
        caller: Pid(pid),
        call,
        reply,
    }
}

fn happened(pid: u32, event: Event) -> Entry {
    Entry::Happened {
        pid: Pid(pid),
        event,
    }
}

fn forks(child: u32) -> Entry {
    called(2, Call::Fork, Reply::Number(child))
}

fn exits(pid: u32, status: u32) -> Entry {
    called(pid, Call::Exit(status), Reply::NoReply)
}

fn waits(reply: Reply) -> Entry {
    let call = Call::Waitpid {
        sel: -1,
        stopped: false,
        continued: false,
    };
    called(2, call, reply)
}

fn waits_for(child: u32, status: u8) -> Entry {
    waits(Reply::Child(Pid(child), WaitStatus::Exited(status)))
}

fn is_name(number: i64) -> bool
    ensures { IsTrue result → IsName number }
{
    number >= -4_294_967_295 && number <= 4_294_967_295
}

fn has_names(entry: &Entry) -> bool
    ensures { IsTrue result → EntryHasNames entry.now }
{
    match *entry {
        Entry::Called {
            call: Call::Waitpid { sel, .. },
            ..
        } => is_name(sel),
        Entry::Called {
            call: Call::Kill { target, .. },
            ..
        } => is_name(target),
        Entry::Called {
            call: Call::Setpgid { pgid, .. },
            ..
        } => is_name(pgid),
        _ => true,
    }
}

fn have_names(entries: &[Entry]) -> bool
    ensures { IsTrue result → All EntryHasNames entries.now }
{
    for entry in entries {
        if !has_names(entry) {
            return false;
        }
    }
    true
}

fn expect(
    rt: &impl Abort,
    alloc: Global,
    world: &World,
    entries: &[Entry],
    judged: Judged,
) -> Result<(), Fail> {
    assert!(rt; world.is_valid());
    assert!(rt; have_names(entries));
    assert_eq!(rt; audit(alloc, world, entries)?, judged);
    Ok(())
}

#[test]
fn a_wait_for_the_low_eight_bits(rt: HostRuntime) -> Result<(), Fail> {
    let alloc = rt.alloc();
    let world = world(alloc, &[FORK, WAIT_ANY])?;
    let again = Reply::Again;
    let whole = [
        forks(3),
        waits(Reply::Again),
        exits(3, 263),
        waits_for(3, 7),
        exits(2, 0),
    ];
    expect(&rt, alloc, &world, &whole, Judged::Legal)?;
    expect(&rt, alloc, &world, &[], Judged::Legal)?;
    let exchanged = [
        waits(Reply::Again),
        forks(3),
        exits(3, 263),
        waits_for(3, 7),
    ];
    expect(
        &rt,
        alloc,
        &world,
        &exchanged,
        Judged::IllegalAt(1, Breach::ScriptOrder),
    )?;
    let other_status = [
        forks(3),
        waits(again),
        exits(3, 263),
        waits_for(3, 8),
        exits(2, 0),
    ];
    expect(
        &rt,
        alloc,
        &world,
        &other_status,
        Judged::IllegalAt(4, Breach::WrongReply),
    )?;
    let moves_on = [forks(3), waits(Reply::Again), exits(2, 0)];
    expect(
        &rt,
        alloc,
        &world,
        &moves_on,
        Judged::IllegalAt(3, Breach::ScriptOrder),
    )?;
    let ended = [forks(3), exits(3, 263), exits(3, 263)];
    expect(
        &rt,
        alloc,
        &world,
        &ended,
        Judged::IllegalAt(3, Breach::UnknownProcess),
    )?;
    let nobody = [exits(4, 0), exits(2, 0)];
    expect(
        &rt,
        alloc,
        &world,
        &nobody,
        Judged::IllegalAt(1, Breach::UnknownProcess),
    )?;
    let not_due = [forks(3), happened(3, Event::Continued)];
    expect(
        &rt,
        alloc,
        &world,
        &not_due,
        Judged::IllegalAt(2, Breach::WrongEvent),
    )
}

#[test]
fn a_signal_comes_before_the_next_call(rt: HostRuntime) -> Result<(), Fail> {
    let alloc = rt.alloc();
    let kill = Statement::Kill {
        minus: false,
        arg: Arg::Own,
        sig: 1,
    };
    let world = world(alloc, &[kill, Statement::Getpid])?;
    let kills = || called(2, Call::Kill { target: 2, sig: 1 }, Reply::Fine);
    let names = || called(2, Call::Getpid, Reply::Number(2));
    expect(
        &rt,
        alloc,
        &world,
        &[kills(), names()],
        Judged::IllegalAt(2, Breach::SignalFirst),
    )?;
    expect(
        &rt,
        alloc,
        &world,
        &[kills(), kills()],
        Judged::IllegalAt(2, Breach::ScriptOrder),
    )?;
    let ends = happened(2, Event::EndedBy(Signal::Hup));
    expect(&rt, alloc, &world, &[kills(), ends], Judged::Legal)
}

// The second child has the pid of the first one, which was waited for.
#[test]
fn a_pid_begins_anew(rt: HostRuntime) -> Result<(), Fail> {
    let alloc = rt.alloc();
    let world = world(alloc, &[FORK, WAIT_ANY, FORK])?;
    let twice = [
        forks(3),
        exits(3, 263),
        waits_for(3, 7),
        forks(3),
        exits(3, 263),
        exits(2, 0),
    ];
    expect(&rt, alloc, &world, &twice, Judged::Legal)
}
