use file_parts::Span;
use script_reader::read_file;
use script_words::{Fault, Kind, ReadRefusal};
use std::alloc::Global;
use std::test::Fail;
use unix_calls::World;
use unix_names::{NodeId, Pid};

// The world of a text that is all world part.
fn read(alloc: Global, text: &[u8]) -> Result<World, ReadRefusal> {
    if text.len() >= 1_000_000 {
        return Err(ReadRefusal::NoMemory);
    }
    let part = Span {
        from: 0,
        to: text.len(),
        first_line: 1,
    };
    read_file(alloc, text, part)
}

// The fault of a text, or one at line 0 where there is none.
fn fault_of(alloc: Global, text: &[u8]) -> Fault {
    match read(alloc, text) {
        Err(ReadRefusal::Bad(fault)) => fault,
        _ => Fault {
            line: 0,
            kind: Kind::NoStart,
        },
    }
}

// Texts, each with its least line that has a fault and the first fault of it.
const FAULTY: [(&str, u32, Kind); 42] = [
    ("", 1, Kind::NoClusterLine),
    ("\n# cluster 1\n", 1, Kind::NoClusterLine),
    ("# a\nscript a\nend\n", 2, Kind::NoClusterLine),
    ("cluster 0\n", 1, Kind::TooManyNodes),
    ("\ncluster 65\n", 2, Kind::TooManyNodes),
    ("cluster 1x\n", 1, Kind::BadNumber),
    ("cluster 4294967296\n", 1, Kind::BadNumber),
    ("cluster 00000000001\n", 1, Kind::BadNumber),
    ("cluster\n", 1, Kind::UnknownWord),
    ("cluster 1 1\n", 1, Kind::UnknownWord),
    ("cluster 1\0\n", 1, Kind::BadNumber),
    ("cluster 1\r\n", 1, Kind::NoStart),
    ("cluster 1\n\n\n", 3, Kind::NoStart),
    ("cluster 1\nscript a\ngetpid\n", 3, Kind::UnknownWord),
    ("cluster 1\nscript a\nscript b\n", 3, Kind::UnknownWord),
    ("cluster 1\nend\n", 2, Kind::UnknownWord),
    ("cluster 1\ngetpid\n", 2, Kind::UnknownWord),
    (
        "cluster 1\nscript a\nstart 0 a p\nend\n",
        3,
        Kind::UnknownWord,
    ),
    ("cluster 1\nscript a\nfoo\nbar\n", 3, Kind::UnknownWord),
    (
        "cluster 1\nscript a\nexit x\nexec b\nend\n",
        3,
        Kind::BadNumber,
    ),
    ("cluster 1\nscript self\n", 2, Kind::UnknownWord),
    ("cluster 1\nscript abcdefghijklmnopq\n", 2, Kind::LongName),
    (
        "cluster 1\nscript a\nend\nstart 0 a abcdefghijklmnopq\n",
        4,
        Kind::LongName,
    ),
    ("cluster 1\nscript a\nend\nscript a\n", 4, Kind::DoubleName),
    (
        "cluster 1\nscript a\nend\nstart 0 a p\nstart 0 a p\n",
        5,
        Kind::DoubleName,
    ),
    ("cluster 1\nstart 0 a p\n", 2, Kind::UnknownScript),
    (
        "cluster 1\nscript a\nfork c b\nend\n",
        3,
        Kind::UnknownScript,
    ),
    (
        "cluster 1\nscript a\nexec a\nend\nstart 0 a p\n",
        3,
        Kind::LaterScript,
    ),
    (
        "cluster 1\nscript a\nfork c a\nend\nstart 0 a p\n",
        3,
        Kind::LaterScript,
    ),
    (
        "cluster 1\nscript a\nfork c b\nend\nscript b\nend\n",
        3,
        Kind::LaterScript,
    ),
    (
        "cluster 1\nscript a\nend\nstart 1 a p\n",
        4,
        Kind::NoSuchNode,
    ),
    ("cluster 2\nscript a\nmigrate 2\nend\n", 3, Kind::NoSuchNode),
    (
        "cluster 1\nscript a\nend\nstart 1 Q p\n",
        4,
        Kind::NoSuchNode,
    ),
    ("cluster 1\nscript a\nkill -1 9\nend\n", 3, Kind::BadNumber),
    ("cluster 1\nscript a\nkill 0 9x\nend\n", 3, Kind::BadNumber),
    (
        "cluster 1\nscript a\nkill 0 NONE\nend\n",
        3,
        Kind::UnknownWord,
    ),
    ("cluster 1\nscript a\nwait -0\nend\n", 3, Kind::BadNumber),
    (
        "cluster 1\nscript a\nsetpgid 0 -2\nend\n",
        3,
        Kind::BadNumber,
    ),
    ("cluster 1\nscript a\nmask 4\nend\n", 3, Kind::BadNumber),
    ("cluster 1\nscript a\ngetsid q\nend\n", 3, Kind::UnknownWord),
    (
        "cluster 1\nscript a\nend\nstart 0 a p with p\n",
        4,
        Kind::UnknownWord,
    ),
    (
        "cluster 1\nscript a\nend\nstart 0 a p with q\nstart 0 a q\n",
        4,
        Kind::UnknownWord,
    ),
];

#[test]
fn tells_the_least_fault(rt: HostRuntime) {
    for (text, line, kind) in FAULTY {
        assert_eq!(rt; fault_of(rt.alloc(), text.as_bytes()), Fault { line, kind });
    }
    let bytes: [(&[u8], u32, Kind); 4] = [
        (b"#\xff\n", 1, Kind::NotUtf8),
        (b"\n#\xff\n", 1, Kind::NoClusterLine),
        (b"cluster 1\n# \xff\n", 2, Kind::NotUtf8),
        (b"cluster 1\nscript a\nexit 4\xff\nend\n", 3, Kind::NotUtf8),
    ];
    for (text, line, kind) in bytes {
        assert_eq!(rt; fault_of(rt.alloc(), text), Fault { line, kind });
    }
}

// A text that stands so many times, each time with its number, from 1 on, between its two halves.
type Piece = (&'static str, u32, &'static str);

fn text_of(alloc: Global, pieces: &[Piece]) -> Result<String, Fail> {
    let mut text = String::new(alloc);
    for (front, times, back) in pieces {
        for n in 0..*times {
            let number = n + 1;
            write!(text, "{front}{number}{back}")?;
        }
    }
    Ok(text)
}

const FIRST: Piece = ("cluster ", 1, "\nscript a\nend\n");

const SCRIPTS: Piece = ("script a", 63, "\nend\n");

const OPENED: Piece = ("script b", 1, "\n");

const CLOSED: Piece = ("end\nstart 0 b1 q", 1, "\n");

const FULL: Piece = ("exit ", 256, "\n");

const STARTS: Piece = ("start 0 a p", 64, "\n");

// With these a script makes one process and 16 more: at most 60 of them make at most 1,024.
const FORKS: Piece = ("fork c", 16, " a\n");

// With these a script runs one statement and 255 more: at most 16 of them run at most 4,096.
const LONG: Piece = ("exit ", 255, "\n");

#[test]
fn takes_what_the_limits_let_in(rt: HostRuntime) -> Result<(), Fail> {
    let fine: [&[Piece]; 4] = [
        &[FIRST, SCRIPTS, STARTS],
        &[FIRST, OPENED, FULL, CLOSED],
        &[FIRST, OPENED, FORKS, CLOSED, ("start 0 b1 p", 59, "\n")],
        &[FIRST, OPENED, LONG, CLOSED, ("start 0 b1 p", 15, "\n")],
    ];
    for pieces in fine {
        let text = text_of(rt.alloc(), pieces)?;
        assert!(rt; read(rt.alloc(), text.as_bytes()).is_ok());
    }
    Ok(())
}

#[test]
fn tells_what_passes_a_limit(rt: HostRuntime) -> Result<(), Fail> {
    let unnamed = ("script ", 1, "\n");
    let wrong = ("exit x", 1, "\n");
    let one = ("start 0 a q", 1, "\n");
    let nowhere = ("start ", 1, "\n");
    let crowd = ("start 0 b1 p", 64, "\n");
    let bad: [(&[Piece], u32, Kind); 8] = [
        (&[FIRST, SCRIPTS, OPENED], 130, Kind::TooManyScripts),
        (&[FIRST, SCRIPTS, unnamed], 130, Kind::TooManyScripts),
        (&[FIRST, OPENED, FULL, FULL], 261, Kind::TooManyStatements),
        (&[FIRST, OPENED, FULL, wrong], 261, Kind::TooManyStatements),
        (&[FIRST, STARTS, one], 68, Kind::TooManyStarts),
        (&[FIRST, STARTS, nowhere], 68, Kind::TooManyStarts),
        (
            &[FIRST, OPENED, FORKS, CLOSED, crowd],
            82,
            Kind::TooMuchWork,
        ),
        (
            &[FIRST, OPENED, LONG, CLOSED, crowd],
            277,
            Kind::TooMuchWork,
        ),
    ];
    for (pieces, line, kind) in bad {
        let text = text_of(rt.alloc(), pieces)?;
        assert_eq!(rt; fault_of(rt.alloc(), text.as_bytes()), Fault { line, kind });
    }
    Ok(())
}

#[test]
fn reads_a_world(rt: HostRuntime) -> Result<(), Fail> {
    let text =
        "# first\ncluster 2\r\nstart 1 top p\nscript kid\nend\nscript top\nfork c kid\nend\nstart 1 kid q uid 7 with p";
    let Ok(world) = read(rt.alloc(), text.as_bytes()) else {
        return Err(Fail::from("it has no fault"));
    };
    assert_eq!(rt;
        (
            world.nodes,
            world.vars,
            world.scripts.len(),
            world.starts.len()
        ),
        (2, 3, 2, 2)
    );
    let Some(second) = world.starts.get(1) else {
        return Err(Fail::from("there are two starts"));
    };
    assert_eq!(rt;
        (second.node, second.script, second.var, second.uid),
        (NodeId(1), 0, 2, 7)
    );
    assert_eq!(rt; (second.pid, second.joined), (Pid(1_000_003), Some(0)));
    Ok(())
}
