// One table: 2 has the children 3, which has ended, 4, which has stopped, and 5, which runs.
use kernel_choice::{first_event, reply_of};
use process_table::{ProcessTable, Row};
use signal_state::Sig;
use std::alloc::Global;
use std::test::Fail;
use unix_calls::{Call, Event, Reply};
use unix_names::{Act, Errno, Life, NoMemory, Pid, SYSTEM, SigSet, Signal, WaitStatus};

fn row(pid: u32, parent: Pid, group: u32, life: Life) -> Row {
    Row {
        pid: Pid(pid),
        parent,
        group: Pid(group),
        session: Pid(2),
        uid: 7,
        life,
        change: None,
        execed: false,
        sig: Sig::fresh(),
    }
}

fn table(alloc: Global, rows: &[Row]) -> Result<ProcessTable, NoMemory> {
    let mut table = ProcessTable::new(alloc);
    for row in rows {
        table.push(*row)?;
    }
    Ok(table)
}

// The first event of a process that is alone.
fn first(alloc: Global, own: &Row) -> Result<Option<Event>, NoMemory> {
    Ok(first_event(&table(alloc, &[*own])?, own))
}

#[test]
fn events_in_order(rt: HostRuntime) -> Result<(), Fail> {
    let mut own = row(2, SYSTEM, 2, Life::Runs);
    assert_eq!(rt; first(rt.alloc(), &own)?, None);
    own.sig.generate(Signal::Term);
    own.sig.generate(Signal::Int);
    own.sig.generate(Signal::Tstp);
    assert_eq!(rt; first(rt.alloc(), &own)?, Some(Event::EndedBy(Signal::Int)));
    let _ = own.sig.set_action(Signal::Int, Act::Catch);
    assert_eq!(rt; first(rt.alloc(), &own)?, Some(Event::Caught(Signal::Int)));
    own.sig
        .set_mask(SigSet::empty().with(Signal::Int).with(Signal::Term));
    assert_eq!(rt;
        first(rt.alloc(), &own)?,
        Some(Event::Discarded(Signal::Tstp))
    );
    own.sig.stop(Signal::Stop);
    assert_eq!(rt; first(rt.alloc(), &own)?, None);
    own.sig.generate(Signal::Cont);
    assert_eq!(rt; first(rt.alloc(), &own)?, Some(Event::Continued));
    own.sig.generate(Signal::Kill);
    assert_eq!(rt;
        first(rt.alloc(), &own)?,
        Some(Event::EndedBy(Signal::Kill))
    );
    Ok(())
}

#[test]
fn replies_of_calls(rt: HostRuntime) -> Result<(), Fail> {
    let caller = row(2, SYSTEM, 2, Life::Runs);
    let ended = row(3, Pid(2), 2, Life::Ended(WaitStatus::Exited(7)));
    let mut stopped = row(4, Pid(2), 4, Life::Stopped);
    stopped.change = Some(WaitStatus::Stopped(Signal::Stop));
    let rows = [caller, stopped, ended, row(5, Pid(2), 5, Life::Runs)];
    let rows = table(rt.alloc(), &rows)?;
    let wait = Call::Waitpid {
        sel: -1,
        stopped: false,
        continued: false,
    };
    let wait_stopped = Call::Waitpid {
        sel: -1,
        stopped: true,
        continued: false,
    };
    let wait_five = Call::Waitpid {
        sel: 5,
        stopped: true,
        continued: true,
    };
    let wait_nine = Call::Waitpid {
        sel: 9,
        stopped: true,
        continued: true,
    };
    assert_eq!(rt;
        reply_of(&rows, &caller, &wait, Pid(6)),
        Reply::Child(Pid(3), WaitStatus::Exited(7))
    );
    assert_eq!(rt;
        reply_of(&rows, &caller, &wait_stopped, Pid(6)),
        Reply::Child(Pid(4), WaitStatus::Stopped(Signal::Stop))
    );
    assert_eq!(rt; reply_of(&rows, &caller, &wait_five, Pid(6)), Reply::Again);
    assert_eq!(rt;
        reply_of(&rows, &caller, &wait_nine, Pid(6)),
        Reply::Refused(Errno::ECHILD)
    );
    assert_eq!(rt;
        reply_of(&rows, &caller, &Call::Fork, Pid(6)),
        Reply::Number(6)
    );
    assert_eq!(rt;
        reply_of(&rows, &caller, &Call::Getpgid(4), Pid(6)),
        Reply::Number(4)
    );
    assert_eq!(rt;
        reply_of(&rows, &caller, &Call::Getsid(1), Pid(6)),
        Reply::Refused(Errno::EPERM)
    );
    assert_eq!(rt;
        reply_of(&rows, &caller, &Call::Setsid, Pid(6)),
        Reply::Refused(Errno::EPERM)
    );
    assert_eq!(rt;
        reply_of(&rows, &caller, &Call::Exit(1), Pid(6)),
        Reply::NoReply
    );
    Ok(())
}
