use crate::top::vproc_top;
use byte_ends::{MemSink, MemSource, NoHold};
use command_ends::Status;
use std::alloc::Global;
use std::sync::Wait;
use std::test::Fail;
use std::thread::Threads;

const SMALLEST: &str = "cluster 1\nscript a\nend\nstart 0 a p\n";

const BITS: &str =
    "cluster 1\nscript kid\nexit 263\nend\nscript top\nfork c kid\nwait any\nend\nstart 0 top p\n";

const JUDGED: &str =
    "cluster 1\nscript kid\nexit 263\nend\nscript top\nfork c kid\nwait any\nend\nstart 0 top p\nhistory\n2 fork = 3\n2 waitpid -1 = again\n3 exit 263\n2 waitpid -1 = 3 exited 7\n2 exit 0\nquiet\n";

const FORGED: &str =
    "cluster 1\nscript kid\nexit 263\nend\nscript top\nfork c kid\nwait any\nend\nstart 0 top p\nhistory\n2 fork = 3\n2 waitpid -1 = again\n3 exit 263\n2 waitpid -1 = 3 exited 8\n2 exit 0\nquiet\n";

const MISSPELT: &str = "cluster 1\nscript a\nend\nstart 0 a p\nhistory\n2 exti 0\n";

// The child's number is 2^32 + 3, which no process has.
const LARGE_CHILD: &str =
    "cluster 1\nscript a\nend\nscript b\nfork c a\nend\nstart 0 b p\nhistory\n2 fork = 4294967299\n";

// A parent is told the low eight bits of a status.
const LARGE_STATUS: &str =
    "cluster 1\nscript a\nend\nstart 0 a p\nhistory\n2 waitpid -1 = 3 exited 263\n";

const STAMPED: &str =
    "cluster 1\nscript a\nend\nstart 0 a p\nhistory\nformat 2\n0 0 2 exit 0\nquiet\n";

// The process is of user 0.
const OTHER_USER: &str = "cluster 1\nscript a\nend\nstart 0 a p\nhistory\nformat 2\n0 7 2 exit 0\n";

const EQUAL_PLACES: &str =
    "cluster 1\nscript a\ngetpid\ngetppid\nend\nstart 0 a p\nhistory\nformat 2\n3 0 2 getpid = 2\n3 0 2 getppid = 1\n";

// There is no process 9, so its user is not asked.
const STAMPED_NOBODY: &str =
    "cluster 1\nscript a\nend\nstart 0 a p\nhistory\nformat 2\n0 7 9 exit 0\n";

const WITHOUT_USER: &str = "cluster 1\nscript a\nend\nstart 0 a p\nhistory\nformat 2\n0 2 exit 0\n";

// The first line of the part is a comment, so the part is of no format 2.
const LATE_FORMAT: &str =
    "cluster 1\nscript a\nend\nstart 0 a p\nhistory\n# x\nformat 2\n0 0 2 exit 0\n";

const TWO_NODES: &str = "# two\ncluster 2\nscript a\nend\nstart 0 a p\n";

// A process forks a child on another node, and asks once whether it has ended.
const REMOTE: &str =
    "cluster 2\nscript kid\nexit 7\nend\nscript top\nfork c kid at 1\npoll any\nend\nstart 0 top p\n";

const PIPELINE: &str = "cluster 2\njob a 3@0 4@1\nrun a\n";

const TWICE: &str = "cluster 2\njob a 3@0 4@1\nrun a\nrun a\n";

const MANY_TURNS: &str = "cluster 1\nscript a\nend\nstart 0 a p\nschedule\nauto 200001\n";

// Every command, and each way to end that is due to the words or the input: the words, the input, the status, and what is written.
const CASES: [(&[&str], &str, Status, &str); 44] = [
    (&["replay"], SMALLEST, Status::Done, "2 exit 0\nquiet\n"),
    (
        &["replay"],
        BITS,
        Status::Done,
        "2 fork = 3\n2 waitpid -1 = again\n3 exit 263\n2 waitpid -1 = 3 exited 7\n2 exit 0\nquiet\n",
    ),
    (
        &["replay"],
        "",
        Status::BadFile,
        "bad file: line 1: NoClusterLine\n",
    ),
    (&["replay"], TWO_NODES, Status::Done, "2 exit 0\nquiet\n"),
    (
        &["replay", "2"],
        REMOTE,
        Status::Done,
        "format 2\n1 0 2 fork = 1000002\n7 0 2 waitpid -1 = again\n11 0 2 exit 0\n14 0 1000002 exit 7\nquiet\n",
    ),
    (
        &["replay"],
        MANY_TURNS,
        Status::BadFile,
        "bad file: line 6: TooManyTurns\n",
    ),
    (
        &["replay"],
        JUDGED,
        Status::BadFile,
        "bad file: line 10: UnknownWord\n",
    ),
    (
        &["run", "1"],
        SMALLEST,
        Status::Done,
        "2 exit 0\nquiet\nschedule\ngo 0\n",
    ),
    (
        &["run", "8"],
        MANY_TURNS,
        Status::BadFile,
        "bad file: line 6: TooManyTurns\n",
    ),
    (
        &["run", "4"],
        JUDGED,
        Status::BadFile,
        "bad file: line 10: UnknownWord\n",
    ),
    (&["audit"], JUDGED, Status::Done, "legal\n"),
    (&["audit"], TWO_NODES, Status::Done, "legal\n"),
    (&["audit"], FORGED, Status::Illegal, "illegal at 4: reply\n"),
    (
        &["audit"],
        MISSPELT,
        Status::Illegal,
        "bad text at line 6\n",
    ),
    (
        &["audit"],
        LARGE_CHILD,
        Status::Illegal,
        "bad text at line 9\n",
    ),
    (
        &["audit"],
        LARGE_STATUS,
        Status::Illegal,
        "bad text at line 6\n",
    ),
    (&["audit"], STAMPED, Status::Done, "legal\n"),
    (
        &["audit"],
        OTHER_USER,
        Status::Illegal,
        "illegal at 1: user\n",
    ),
    (
        &["audit"],
        EQUAL_PLACES,
        Status::Illegal,
        "illegal at 2: place\n",
    ),
    (
        &["audit"],
        STAMPED_NOBODY,
        Status::Illegal,
        "illegal at 1: unknown process\n",
    ),
    (
        &["audit"],
        WITHOUT_USER,
        Status::Illegal,
        "bad text at line 7\n",
    ),
    (
        &["audit"],
        LATE_FORMAT,
        Status::Illegal,
        "bad text at line 7\n",
    ),
    (
        &["table", "3"],
        JUDGED,
        Status::Done,
        "2 1 2 2 0 runs pending - mask -\n3 2 2 2 0 exited 7 pending - mask -\n",
    ),
    (&["table", "6"], JUDGED, Status::Done, "no entry 6\n"),
    (
        &["table", "9"],
        FORGED,
        Status::Illegal,
        "illegal at 4: reply\n",
    ),
    (&["why", "2"], JUDGED, Status::Done, "otherwise\n"),
    (&["why", "1"], STAMPED, Status::Done, "otherwise\n"),
    (&["why", "009"], JUDGED, Status::Done, "no entry 9\n"),
    (&["why", "0"], JUDGED, Status::Done, "no entry 0\n"),
    (
        &["load", "0", "1", "1"],
        "",
        Status::Done,
        "entries 2\nprocesses 1\nquiet\n",
    ),
    (
        &["make", "0", "1", "1"],
        "",
        Status::Done,
        "cluster 1\nscript lead0\naction USR1 catch\nend\nstart 0 lead0 p0\n",
    ),
    (
        &["compile"],
        "",
        Status::BadFile,
        "bad file: line 1: NoClusterLine\n",
    ),
    (
        &["compile"],
        PIPELINE,
        Status::Done,
        "cluster 2\nscript s0\nkill self STOP\ngetpid\nexit 3\nend\nscript s1\nkill self STOP\ngetpid\nexit 4\nend\nscript s2\nfork v0 s0 at 0\nwait v0 stopped\nfork v1 s1 at 1\nwait v1 stopped\nsetpgid v0 v0\nsetpgid v1 v0\nkill -v0 CONT\nwait v0\nwait v1\nend\nstart 0 s2 v2\n",
    ),
    (
        &["compile"],
        TWICE,
        Status::BadFile,
        "bad file: line 4: JobTwice\n",
    ),
    (
        &["jobs"],
        PIPELINE,
        Status::Done,
        "a exited 3 exited 4\nquiet\n",
    ),
    (
        &["jobs"],
        TWICE,
        Status::BadFile,
        "bad file: line 4: JobTwice\n",
    ),
    (&["run", "0"], SMALLEST, Status::BadWords, ""),
    (&["run", "9"], SMALLEST, Status::BadWords, ""),
    (&["run", "x"], SMALLEST, Status::BadWords, ""),
    (&["replay", "x"], SMALLEST, Status::BadWords, ""),
    (&["table"], SMALLEST, Status::BadWords, ""),
    (&["why", "4294967296"], SMALLEST, Status::BadWords, ""),
    (&["make", "0", "0", "1"], SMALLEST, Status::BadWords, ""),
    (&[], SMALLEST, Status::BadWords, ""),
];

// How the program ends with these words and this input, where these calls of the source and of the sink fail, and what it has written. The sink takes four bytes in a call.
fn end_of<R: Threads + Wait + Sync>(
    rt: &R,
    alloc: Global,
    words: &[&str],
    input: Vec<u8>,
    read_fails: &[u64],
    write_fails: &[u64],
) -> Result<(Status, Vec<u8>), Fail> {
    let mut source = MemSource::new(input, Vec::from_slice(alloc, read_fails)?);
    let mut sink = MemSink::new(alloc, 1000, 4, Vec::from_slice(alloc, write_fails)?).map_err(
        |_| Fail::from("no memory"),
    )?;
    let status = vproc_top(rt, alloc, words, &mut source, &mut sink, &NoHold);
    Ok((status, Vec::from_slice(alloc, sink.bytes())?))
}

#[test]
fn answers(rt: HostRuntime) -> Result<(), Fail> {
    let alloc = rt.alloc();
    for (words, input, status, output) in CASES {
        let input = Vec::from_slice(alloc, input.as_bytes())?;
        let (ended, written) = end_of(&rt, alloc, words, input, &[], &[])?;
        assert_eq!(rt; ended, status, "at {output}");
        assert_eq!(rt; written.as_slice(), output.as_bytes());
    }
    Ok(())
}

#[test]
fn tells_faults(rt: HostRuntime) -> Result<(), Fail> {
    let alloc = rt.alloc();
    let input = Vec::from_slice(alloc, SMALLEST.as_bytes())?;
    let (status, written) = end_of(&rt, alloc, &["replay"], input, &[1], &[])?;
    assert_eq!(rt; status, Status::ReadFault);
    assert_eq!(rt; written.len(), 0);
    let input = Vec::from_slice(alloc, SMALLEST.as_bytes())?;
    let (status, written) = end_of(&rt, alloc, &["replay"], input, &[], &[3])?;
    assert_eq!(rt; status, Status::WriteFault);
    assert_eq!(rt; written.as_slice(), "2 exit 0".as_bytes());
    Ok(())
}

#[test]
fn tells_length(rt: HostRuntime) -> Result<(), Fail> {
    let alloc = rt.alloc();
    let long = vec![in alloc; b'a'; 1_048_577]?;
    let (status, written) = end_of(&rt, alloc, &["audit"], long, &[], &[])?;
    assert_eq!(rt; status, Status::TooLong);
    assert_eq!(rt; written.len(), 0);
    Ok(())
}
