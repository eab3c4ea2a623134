ghost use Rattle.std.specs.Prelude.{◌≡◌, length};

use file_parts::Span;
use run_text::{put_schedule, read_schedule};
use script_words::{Fault, Kind, ReadRefusal};
use std::alloc::Global;
use std::process::Abort;
use std::test::Fail;
use unix_calls::Turn;

fn whole(text: &[u8]) -> Span
    ensures from { result.from ≡ 0 }
    ensures to { result.to ≡ length text.now }
    ensures first { result.first_line ≡ 1 }
{
    Span {
        from: 0,
        to: text.len(),
        first_line: 1,
    }
}

#[test]
fn reads_schedules(rt: HostRuntime) -> Result<(), Fail> {
    let text: &[u8] = b"go 0\n# go 9\n\npush 1 0\r\n\ttake 01 1\nauto 199997";
    let turns = [
        Turn::Go(0),
        Turn::Push(1, 0),
        Turn::Take(1, 1),
        Turn::Auto(199_997),
    ];
    let read = read_schedule(rt.alloc(), text, whole(text), 2).map_err(|_| Fail::from("refused"))?;
    assert_eq!(rt; read.as_slice(), turns.as_slice());
    let written = put_schedule(rt.alloc(), &turns).map_err(|_| Fail::from("no memory"))?;
    assert_eq!(rt;
        written.as_slice(),
        "go 0\npush 1 0\ntake 1 1\nauto 199997\n".as_bytes()
    );
    Ok(())
}

// Whether each text has this fault first, for a cluster of two nodes.
fn are_faults(rt: &impl Abort, alloc: Global, cases: &[(&[u8], u32, Kind)]) -> Result<(), Fail> {
    for (text, line, kind) in cases {
        assert!(rt; text.len() < 100);
        let fault = Fault {
            line: *line,
            kind: *kind,
        };
        let told = read_schedule(alloc, text, whole(text), 2).err();
        assert_eq!(rt; told, Some(ReadRefusal::Bad(fault)));
    }
    Ok(())
}

#[test]
fn finds_faults(rt: HostRuntime) -> Result<(), Fail> {
    let cases: [(&[u8], u32, Kind); 17] = [
        (b"go 1\n# \xff\ngo 7", 2, Kind::NotUtf8),
        (b"go 1 \xff", 1, Kind::NotUtf8),
        (b"go", 1, Kind::UnknownWord),
        (b"push 1", 1, Kind::UnknownWord),
        (b"go 0\ngone 0", 2, Kind::UnknownWord),
        (b"go 0 0", 1, Kind::UnknownWord),
        (b"auto 1 1", 1, Kind::UnknownWord),
        (b"go x", 1, Kind::BadNumber),
        (b"go -1", 1, Kind::BadNumber),
        (b"go 4294967296", 1, Kind::BadNumber),
        (b"auto 00000000001", 1, Kind::BadNumber),
        (b"go 2", 1, Kind::NoSuchNode),
        (b"push 0 2", 1, Kind::NoSuchNode),
        (b"# two\n\ntake 4294967295 0", 3, Kind::NoSuchNode),
        (b"auto 199999\ngo 0\ngo 1\n", 3, Kind::TooManyTurns),
        (b"auto 200000\npush 0 1\n", 2, Kind::TooManyTurns),
        (b"auto 200001", 1, Kind::TooManyTurns),
    ];
    are_faults(&rt, rt.alloc(), &cases)
}

// The first line with a fault; on it the bytes come first, then the words from left to right, then the turns.
#[test]
fn finds_first_faults(rt: HostRuntime) -> Result<(), Fail> {
    let cases: [(&[u8], u32, Kind); 12] = [
        (b"walk x \xff", 1, Kind::NotUtf8),
        (b"auto 200001 \xff", 1, Kind::NotUtf8),
        (b"walk x", 1, Kind::UnknownWord),
        (b"auto 200001 x", 1, Kind::UnknownWord),
        (b"push x", 1, Kind::BadNumber),
        (b"take x 2", 1, Kind::BadNumber),
        (b"go x 0", 1, Kind::BadNumber),
        (b"push 2 x", 1, Kind::NoSuchNode),
        (b"push 0 2 9", 1, Kind::NoSuchNode),
        (b"go 2\ngo \xff\n", 1, Kind::NoSuchNode),
        (b"auto 200001\ngo x\n", 1, Kind::TooManyTurns),
        (b"auto 200000\ngo 2\n", 2, Kind::NoSuchNode),
    ];
    are_faults(&rt, rt.alloc(), &cases)
}
