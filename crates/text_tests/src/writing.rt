use file_parts::Span;
use script_reader::read_file;
use script_words::ReadRefusal;
use script_writer::write_file;
use std::alloc::Global;
use std::test::Fail;
use unix_calls::World;

const FILE: &str = "cluster 3
script leaf
getpid
getppid
setsid
pending
getpgid 0
getpgid 1
getsid none
getsid self
exit 4294967295
end
# a script with each kind of a process
script second
fork c leaf
fork d leaf at 2
exec leaf
wait any
wait any stopped continued
poll c continued
poll -d stopped
wait 0
kill maker 0
kill -self TERM
kill c 99
setpgid 0 0
setpgid c -1
setpgid self -p
action CHLD ignore
action 77 catch
action 0 default
mask
mask TERM 1 USR1
migrate 1
end
start 0 second p
start 2 leaf q uid 1000
start 1 second c with p
";

const WRITTEN: &str = "cluster 3
script s0
getpid
getppid
setsid
pending
getpgid 0
getpgid 1
getsid none
getsid self
exit 4294967295
end
script s1
fork v0 s0
fork v1 s0 at 2
exec s0
wait any
wait any stopped continued
poll v0 continued
poll -v1 stopped
wait 0
kill maker 0
kill -self TERM
kill v0 99
setpgid 0 0
setpgid v0 -1
setpgid self -v2
action CHLD ignore
action 77 catch
action 0 default
mask
mask HUP USR1 TERM
migrate 1
end
start 0 s1 v2
start 2 s0 v3 uid 1000
start 1 s1 v0 with v2
";

// The world of a text that is all world part.
fn read(alloc: Global, text: &[u8]) -> Result<World, ReadRefusal> {
    if text.len() >= 1_000_000 {
        return Err(ReadRefusal::NoMemory);
    }
    let part = Span {
        from: 0,
        to: text.len(),
        first_line: 1,
    };
    read_file(alloc, text, part)
}

#[test]
fn reads_what_it_writes(rt: HostRuntime) -> Result<(), Fail> {
    let Ok(world) = read(rt.alloc(), FILE.as_bytes()) else {
        return Err(Fail::from("the file has no fault"));
    };
    let written = write_file(rt.alloc(), &world).map_err(|_| Fail::from("no memory"))?;
    assert_eq!(rt; written.as_slice(), WRITTEN.as_bytes());
    let Ok(again) = read(rt.alloc(), &written) else {
        return Err(Fail::from("what was written has no fault"));
    };
    assert_eq!(rt; (world.nodes, world.vars), (again.nodes, again.vars));
    assert!(rt; world.starts == again.starts);
    assert_eq!(rt; again.scripts.len(), 2);
    for (old, new) in world
        .scripts
        .as_slice()
        .iter()
        .zip(again.scripts.as_slice())
    {
        assert!(rt; old.statements == new.statements);
    }
    Ok(())
}
