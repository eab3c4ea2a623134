use crate::{load, replay_top, replay_two_top};
use byte_ends::{MemSink, MemSource};
use command_ends::Status;
use std::test::Fail;

// The child runs at the other node; its parent looks for it once, and does not wait.
const REMOTE_FORK: &str =
    "cluster 2\nscript kid\nexit 7\nend\nscript top\nfork c kid at 1\npoll any\nend\nstart 0 top p\n";

const HISTORY: &str = "2 fork = 1000002\n2 waitpid -1 = again\n2 exit 0\n1000002 exit 7\nquiet\n";

// Before each line the number of its turn, counted from 0, and the user: between two lines are turns that add none.
const HISTORY_TWO: &str =
    "format 2\n1 0 2 fork = 1000002\n7 0 2 waitpid -1 = again\n11 0 2 exit 0\n14 0 1000002 exit 7\nquiet\n";

// Three turns that are not possible, and one that is.
const CUT_SHORT: &str =
    "cluster 2\nscript a\ngetpid\nend\nstart 1 a p\nschedule\ngo 0\ntake 1 0\npush 0 1\ngo 1\n";

#[test]
fn replays(rt: HostRuntime) -> Result<(), Fail> {
    let alloc = rt.alloc();
    let cases = [
        (REMOTE_FORK, HISTORY),
        (CUT_SHORT, "1000002 getpid = 1000002\nopen\n"),
    ];
    for (input, output) in cases {
        let bytes = Vec::from_slice(alloc, input.as_bytes())?;
        let mut source = MemSource::new(bytes, Vec::new(alloc));
        let mut sink = MemSink::new(alloc, 1000, 100, Vec::new(alloc)).map_err(|_| Fail::from(
            "no memory",
        ))?;
        assert_eq!(rt; replay_top(alloc, &mut source, &mut sink), Status::Done);
        assert_eq!(rt; sink.bytes(), output.as_bytes());
    }
    Ok(())
}

#[test]
fn replays_two(rt: HostRuntime) -> Result<(), Fail> {
    let alloc = rt.alloc();
    let bytes = Vec::from_slice(alloc, REMOTE_FORK.as_bytes())?;
    let mut source = MemSource::new(bytes, Vec::new(alloc));
    let mut sink = MemSink::new(alloc, 1000, 100, Vec::new(alloc)).map_err(|_| Fail::from(
        "no memory",
    ))?;
    assert_eq!(rt; replay_two_top(alloc, &mut source, &mut sink), Status::Done);
    assert_eq!(rt; sink.bytes(), HISTORY_TWO.as_bytes());
    Ok(())
}

// One leader without children: it sets an action, and ends.
#[test]
fn loads(rt: HostRuntime) -> Result<(), Fail> {
    let text = load(rt.alloc(), 0, 2, 1).map_err(|_| Fail::from("no memory"))?;
    assert_eq!(rt;
        text.as_slice(),
        "entries 2\nprocesses 1\nquiet\n".as_bytes()
    );
    Ok(())
}
