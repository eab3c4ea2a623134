use load_maker::make;
use std::test::Fail;

/// Worked by hand from the rule of the draws: the first four states of seed 0.
#[test]
fn makes(rt: HostRuntime) -> Result<(), Fail> {
    let made = make(rt.alloc(), 0, 2, 2).map_err(|_| Fail::from("no memory"))?;
    let lines =
        "cluster 2\nscript w0\nmask USR1\ngetpid\nsetpgid 0 0\nkill 0 USR1\npending\nmask\nexit 0\nend\nscript lead0\naction USR1 catch\nfork c0 w0 at 1\nwait any\nend\nstart 0 lead0 p0\n";
    assert_eq!(rt; made.as_slice(), lines.as_bytes());
    Ok(())
}
