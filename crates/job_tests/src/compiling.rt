use job_files::{JobFault, JobKind, JobRefusal};
use job_shell::compile;
use std::test::Fail;

const FILE: &[u8] = b"cluster 2\njob a 3@0 4@1\nrun a\n";

const SCRIPTS: &[u8] =
    b"cluster 2\nscript s0\nkill self STOP\ngetpid\nexit 3\nend\nscript s1\nkill self STOP\ngetpid\nexit 4\nend\nscript s2\nfork v0 s0 at 0\nwait v0 stopped\nfork v1 s1 at 1\nwait v1 stopped\nsetpgid v0 v0\nsetpgid v1 v0\nkill -v0 CONT\nwait v0\nwait v1\nend\nstart 0 s2 v2\n";

#[test]
fn a_pipeline_that_is_run(rt: HostRuntime) -> Result<(), Fail> {
    let compiled = compile(rt.alloc(), FILE).ok().ok_or("refused")?;
    assert_eq!(rt; compiled.text.as_slice(), SCRIPTS);
    Ok(())
}

const BACK: &[u8] =
    b"cluster 1\n# two of one status\njob a 0@0\njob b 0@0\nstart b\nstop b\nend b\nbring b\n";

const BACK_SCRIPTS: &[u8] =
    b"cluster 1\nscript s0\nkill self STOP\ngetpid\nexit 0\nend\nscript s1\nfork v0 s0 at 0\nwait v0 stopped\nsetpgid v0 v0\nkill -v0 CONT\nkill -v0 STOP\nkill -v0 TERM\nkill -v0 CONT\nkill -v0 CONT\nwait v0\nend\nstart 0 s1 v1\n";

#[test]
fn a_job_in_the_background(rt: HostRuntime) -> Result<(), Fail> {
    let compiled = compile(rt.alloc(), BACK).ok().ok_or("refused")?;
    assert_eq!(rt; compiled.text.as_slice(), BACK_SCRIPTS);
    Ok(())
}

const FAULTS: [(&[u8], u32, JobKind); 26] = [
    (b"", 1, JobKind::NoClusterLine),
    (b"# \xff\n", 1, JobKind::NotUtf8),
    (b"#\n# \xff\n", 1, JobKind::NoClusterLine),
    (b"#\n# \xff\ncluster 1\n", 2, JobKind::NotUtf8),
    (b"job a 0@0\n", 1, JobKind::NoClusterLine),
    (b"cluster\n", 1, JobKind::UnknownWord),
    (b"cluster x\n", 1, JobKind::BadNumber),
    (b"cluster 65\n", 1, JobKind::TooManyNodes),
    (b"cluster 0 1\n", 1, JobKind::TooManyNodes),
    (b"cluster 1 1\n", 1, JobKind::UnknownWord),
    (b"cluster 1\njob\n", 2, JobKind::UnknownWord),
    (b"cluster 1\njob a\n", 2, JobKind::UnknownWord),
    (
        b"cluster 1\njob abcdefghijklmnopq 0@0\n",
        2,
        JobKind::LongName,
    ),
    (b"cluster 1\njob a 0\n", 2, JobKind::UnknownWord),
    (b"cluster 1\njob a @0\n", 2, JobKind::BadNumber),
    (b"cluster 1\njob a 256@0\n", 2, JobKind::BadNumber),
    (b"cluster 1\njob a 0@1\n", 2, JobKind::NoSuchNode),
    (b"cluster 1\njob a 0@0@0\n", 2, JobKind::BadNumber),
    (b"cluster 1\njob a 0@0\njob a x\n", 3, JobKind::DoubleName),
    (
        b"cluster 1\njob a 0@0 0@0 0@0 0@0 0@0 0@0 0@0 0@0 0@0\n",
        2,
        JobKind::TooManyStages,
    ),
    (b"cluster 1\nrun a\n", 2, JobKind::UnknownJob),
    (
        b"cluster 1\njob a 0@0\nrun a\nrun a b\n",
        4,
        JobKind::JobTwice,
    ),
    (
        b"cluster 1\njob a 0@0\nstop a\n",
        3,
        JobKind::NotInBackground,
    ),
    (
        b"cluster 1\njob a 0@0\nstart a\nbring a\nend a\n",
        5,
        JobKind::NotInBackground,
    ),
    (b"cluster 1\njob a 0@0\nrun a b\n", 3, JobKind::UnknownWord),
    (b"cluster 1\ncluster 1\n", 2, JobKind::UnknownWord),
];

#[test]
fn each_fault(rt: HostRuntime) -> Result<(), Fail> {
    for (file, line, kind) in FAULTS {
        let fault = JobFault { line, kind };
        assert!(rt; file.len() < 10_000);
        let refused = compile(rt.alloc(), file).err().ok_or("accepted")?;
        assert_eq!(rt; refused, JobRefusal::Bad(fault));
    }
    Ok(())
}

#[test]
fn a_statement_too_many(rt: HostRuntime) -> Result<(), Fail> {
    let mut file = vec![in rt.alloc()]?;
    file.extend_from_slice(b"cluster 1\njob a 0@0\nstart a\n")?;
    for _ in 0..252 {
        file.extend_from_slice(b"stop a\n")?;
    }
    assert!(rt; file.len() < 10_000);
    assert!(rt; compile(rt.alloc(), &file).is_ok());
    file.extend_from_slice(b"stop a\n")?;
    assert!(rt; file.len() < 10_000);
    let refused = compile(rt.alloc(), &file).err().ok_or("accepted")?;
    let fault = JobFault {
        line: 256,
        kind: JobKind::TooManyStatements,
    };
    assert_eq!(rt; refused, JobRefusal::Bad(fault));
    Ok(())
}
