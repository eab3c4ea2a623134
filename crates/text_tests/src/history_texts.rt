// Lines that histories have and that have no meaning.
ghost use Rattle.std.specs.Prelude.{◌≡◌, length};

use file_parts::Span;
use histories::{BadLine, Stamped, put_history_two, read_history, read_history_two};
use script_words::ReadRefusal;
use std::alloc::Global;
use std::process::Abort;
use std::test::Fail;
use unix_calls::{Call, Entry, Event, Reply};
use unix_names::{Act, Errno, Pid, SigSet, Signal, WaitStatus};

fn whole(text: &[u8]) -> Span
    ensures from { result.from ≡ 0 }
    ensures to { result.to ≡ length text.now }
    ensures first { result.first_line ≡ 1 }
{
    Span {
        from: 0,
        to: text.len(),
        first_line: 1,
    }
}

fn called(pid: u32, call: Call, reply: Reply) -> Entry {
    Entry::Called {
        caller: Pid(pid),
        call,
        reply,
    }
}

fn happened(pid: u32, event: Event) -> Entry {
    Entry::Happened {
        pid: Pid(pid),
        event,
    }
}

// Whether each text has a bad line first at this number.
fn are_bad(rt: &impl Abort, alloc: Global, cases: &[(&[u8], u32)]) -> Result<(), Fail> {
    for (text, line) in cases {
        assert!(rt; text.len() < 100);
        let told = read_history(alloc, text, whole(text)).err();
        assert_eq!(rt; told, Some(ReadRefusal::Bad(BadLine { line: *line })));
    }
    Ok(())
}

#[test]
fn finds_bad_words(rt: HostRuntime) -> Result<(), Fail> {
    let cases: [(&[u8], u32); 22] = [
        (b"2 frok = 3\n", 1),
        (b"exit 0", 1),
        (b"2 fork\n", 1),
        (b"2 pending =", 1),
        (b"2 fork 1 = 3", 1),
        (b"# a note\n\n2 exit 3 = ok", 3),
        (b"2 kill 2 15 = ok", 1),
        (b"2 action 15 catch = ok", 1),
        (b"2 caught 15", 1),
        (b"2 exit 017", 1),
        (b"02 exit 17", 1),
        (b"2 kill -0 TERM = ok", 1),
        (b"2 waitpid -0 = again", 1),
        (b"2 mask TERM USR1 = -", 1),
        (b"2 pending = TERM USR1", 1),
        (b"2 mask USR1 USR1 = -", 1),
        (b"2 mask = -", 1),
        (b"2 waitpid -1 continued stopped = again", 1),
        (b"2 getpgid 4294967296 = 2", 1),
        (b"2 setpgid 0 -4294967296 = EINVAL", 1),
        (b"2 waitpid 3 = 3 exited 256", 1),
        (b"2 moved CONT", 1),
    ];
    are_bad(&rt, rt.alloc(), &cases)
}

#[test]
fn finds_bad_lines(rt: HostRuntime) -> Result<(), Fail> {
    let cases: [(&[u8], u32); 11] = [
        (b"2 exit 0\nquiet\n3 exit 0\n", 3),
        (b"quiet\n3 exit 0\nschedule\n", 2),
        (b"quiet\n# fine\nopen\n", 3),
        (b"open\nquiet now\nschedule\n", 2),
        (b"open now\n", 1),
        (b"2 exit 0\nschedule 1\n", 2),
        (b"2 exit \xff\n", 1),
        (b"quiet\n\xff\n", 2),
        (b"5000000000 exit 0\n2 frok = 3\n", 1),
        (b"2 fork = 3\n3 exit 017\n2 frok = 3\n", 2),
        (b"2 fork = 3\n2 fork\nquiet\n3 exit 0\n", 2),
    ];
    are_bad(&rt, rt.alloc(), &cases)
}

// Whether a text is a history of these entries.
fn is_read(rt: &impl Abort, alloc: Global, text: &[u8], entries: &[Entry]) -> Result<(), Fail> {
    assert!(rt; text.len() < 400);
    let read = read_history(alloc, text, whole(text)).map_err(|_| Fail::from("refused"))?;
    assert_eq!(rt; read.as_slice(), entries);
    Ok(())
}

// Each kind of line that a history may have beside those of its entries, and none.
#[test]
fn reads_lines(rt: HostRuntime) -> Result<(), Fail> {
    let entries = [
        called(2, Call::Fork, Reply::Number(3)),
        called(3, Call::Exit(263), Reply::NoReply),
    ];
    let cases: [&[u8]; 6] = [
        b"2 fork = 3\n3 exit 263\nquiet\n",
        b"2 fork = 3\n3 exit 263\nopen\n# fine\n\nschedule\n2 frok = 3\n",
        b"2 fork = 3\n3 exit 263\nschedule\n\xff\n",
        b"2 fork = 3\n3 exit 263",
        b"  2\t fork   = 3\r\n# \xff\n\n#\n3  exit 263 \nquiet\n#\n",
        b"2 fork = 3\n3 exit 263\n quiet \n\tschedule\nopen\n",
    ];
    for text in cases {
        is_read(&rt, rt.alloc(), text, &entries)?;
    }
    is_read(&rt, rt.alloc(), b"", &[])?;
    is_read(&rt, rt.alloc(), b"# nothing\nquiet", &[])?;
    is_read(&rt, rt.alloc(), b"schedule\n2 frok = 3\n", &[])
}

fn waits(sel: i64, stopped: bool, continued: bool) -> Call {
    Call::Waitpid {
        sel,
        stopped,
        continued,
    }
}

fn told(status: WaitStatus) -> Reply {
    Reply::Child(Pid(3), status)
}

#[test]
fn reads_calls(rt: HostRuntime) -> Result<(), Fail> {
    let esrch = Reply::Refused(Errno::ESRCH);
    let einval = || Reply::Refused(Errno::EINVAL);
    let group = Call::Setpgid { pid: 5, pgid: -1 };
    let kills = Call::Kill {
        target: -2,
        sig: 15,
    };
    let tries = Call::Kill { target: 3, sig: 77 };
    let acts = Call::Action {
        sig: 17,
        act: Act::Catch,
    };
    let cases: [(&[u8], Call, Reply); 10] = [
        (b"2 getpid = 2", Call::Getpid, Reply::Number(2)),
        (b"2 getppid = 0", Call::Getppid, Reply::Number(0)),
        (b"2 getpgid 0 = ESRCH", Call::Getpgid(0), esrch),
        (
            b"2 getsid 3 = 4294967295",
            Call::Getsid(3),
            Reply::Number(4_294_967_295),
        ),
        (b"2 exec = ok", Call::Exec, Reply::Fine),
        (b"2 migrate = ok", Call::Migrate, Reply::Fine),
        (b"2 kill -2 TERM = ok", kills, Reply::Fine),
        (b"2 kill 3 77 = EINVAL", tries, einval()),
        (b"2 setpgid 5 -1 = EINVAL", group, einval()),
        (b"2 action CHLD catch = ok", acts, Reply::Fine),
    ];
    for (text, call, reply) in cases {
        is_read(&rt, rt.alloc(), text, &[called(2, call, reply)])?;
    }
    Ok(())
}

// Waits and what they tell, and sets.
#[test]
fn reads_waits_and_sets(rt: HostRuntime) -> Result<(), Fail> {
    let stopped = told(WaitStatus::Stopped(Signal::Tstp));
    let killed = told(WaitStatus::Killed(Signal::Kill));
    let continued = told(WaitStatus::Continued);
    let set = SigSet::empty().with(Signal::Term).with(Signal::Usr1);
    let empty = Reply::Set(SigSet::empty());
    let cases: [(&[u8], Call, Reply); 6] = [
        (
            b"2 waitpid -1 stopped continued = 3 stopped TSTP",
            waits(-1, true, true),
            stopped,
        ),
        (
            b"2 waitpid 0 continued = 3 continued",
            waits(0, false, true),
            continued,
        ),
        (
            b"2 waitpid -1000002 = 3 killed KILL",
            waits(-1_000_002, false, false),
            killed,
        ),
        (
            b"2 waitpid 3 stopped = again",
            waits(3, true, false),
            Reply::Again,
        ),
        (b"2 mask USR1 TERM = -", Call::Mask(set), empty),
        (b"2 pending = USR1 TERM", Call::Pending, Reply::Set(set)),
    ];
    for (text, call, reply) in cases {
        is_read(&rt, rt.alloc(), text, &[called(2, call, reply)])?;
    }
    Ok(())
}

#[test]
fn reads_events(rt: HostRuntime) -> Result<(), Fail> {
    let cases: [(&[u8], Event); 6] = [
        (b"1000002 caught USR1", Event::Caught(Signal::Usr1)),
        (b"1000002 discarded CHLD", Event::Discarded(Signal::Chld)),
        (b"1000002 stopped TSTP", Event::StoppedBy(Signal::Tstp)),
        (b"1000002 ended HUP", Event::EndedBy(Signal::Hup)),
        (b"1000002 continued", Event::Continued),
        (b"1000002 moved", Event::Moved),
    ];
    for (text, event) in cases {
        is_read(&rt, rt.alloc(), text, &[happened(1_000_002, event)])?;
    }
    Ok(())
}

const FORMAT_TWO: &[u8] =
    b"format 2\n1 0 2 fork = 1000002\n18446744073709551615 7 2 exit 0\nquiet\n";

fn two_stamped() -> [Stamped; 2] {
    [
        Stamped {
            place: 1,
            uid: 0,
            entry: called(2, Call::Fork, Reply::Number(1_000_002)),
        },
        Stamped {
            place: 18_446_744_073_709_551_615,
            uid: 7,
            entry: called(2, Call::Exit(0), Reply::NoReply),
        },
    ]
}

#[test]
fn reads_stamped_entries(rt: HostRuntime) -> Result<(), Fail> {
    let alloc = rt.alloc();
    let read = read_history_two(alloc, FORMAT_TWO, whole(FORMAT_TWO)).map_err(|_| Fail::from(
        "bad line",
    ))?;
    let entries = read.unwrap_or(Vec::new(alloc));
    assert_eq!(rt; entries.as_slice(), two_stamped().as_slice());
    Ok(())
}

#[test]
fn writes_a_history_of_no_stamped_entries(rt: HostRuntime) -> Result<(), Fail> {
    let none: [Stamped; 0] = [];
    let written = put_history_two(rt.alloc(), &none, true).map_err(|_| Fail::from("no memory"))?;
    assert_eq!(rt; written.as_slice(), b"format 2\nquiet\n".as_slice());
    Ok(())
}

// Another format, and lines that no stamped entry has: a number of the first bad line, or none where the first line is not `format 2`.
#[test]
fn tells_format_two(rt: HostRuntime) -> Result<(), Fail> {
    let alloc = rt.alloc();
    let cases: [(&[u8], Option<u32>); 9] = [
        (b"", None),
        (b"# a note\nformat 2\n", None),
        (b"format 2 2\n", None),
        (b"format 02\n", None),
        (b" format  2\n\n1 0 exit 0\n", Some(3)),
        (b"format 2\n01 0 2 exit 0\n", Some(2)),
        (b"format 2\n+1 0 2 exit 0\n", Some(2)),
        (b"format 2\n18446744073709551616 0 2 exit 0\n", Some(2)),
        (b"format 2\n1 4294967296 2 exit 0\n", Some(2)),
    ];
    for (text, line) in cases {
        assert!(rt; text.len() < 100);
        match read_history_two(alloc, text, whole(text)) {
            Ok(read) => {
                assert!(rt; read.is_none());
                assert_eq!(rt; line, None);
            }
            Err(ReadRefusal::Bad(bad)) => assert_eq!(rt; line, Some(bad.line)),
            Err(ReadRefusal::NoMemory) => return Err(Fail::from("no memory")),
        }
    }
    Ok(())
}
