use proc_image::Image;
use std::alloc::{AllocError, Global};
use std::test::Fail;
use unix_calls::{Arg, Call, Job, Reply, Script, Start, Statement, World};
use unix_names::{NodeId, Pid, Seq, WaitStatus};

// A child that exits, and a process that forks it and waits.
fn world(alloc: Global) -> Result<World, AllocError> {
    let child = Script {
        statements: Seq::from_slice(alloc, &[Statement::Exit(263)])?,
    };
    let fork = Statement::Fork {
        var: 0,
        script: 0,
        at: None,
    };
    let wait = Statement::Wait {
        sleeps: true,
        any: false,
        minus: false,
        arg: Arg::Var(0),
        stopped: false,
        continued: true,
    };
    let parent = Script {
        statements: Seq::from_slice(alloc, &[fork, wait])?,
    };
    let mut scripts = Seq::new(alloc);
    scripts.push(child)?;
    scripts.push(parent)?;
    let start = Start {
        node: NodeId(0),
        script: 1,
        var: 1,
        pid: Pid(2),
        uid: 0,
        joined: None,
    };
    Ok(World {
        nodes: 1,
        vars: 2,
        scripts,
        starts: Seq::from_slice(alloc, &[start])?,
    })
}

fn wait_of(child: i64) -> Job {
    let call = Call::Waitpid {
        sel: child,
        stopped: false,
        continued: true,
    };
    Job::Ask(call, None)
}

#[test]
fn forks_and_waits(rt: HostRuntime) -> Result<(), Fail> {
    let world = world(rt.alloc())?;
    assert!(rt; world.is_valid());
    assert!(rt; world.starts.len() == 1);
    let mut image = Image::start(rt.alloc(), &world, 0)?;
    assert_eq!(rt; image.next_job(&world), Job::Ask(Call::Fork, None));
    assert!(rt; image.script < 2 && image.vars.len() == 2 && image.forks(&world));
    let child = image.child(rt.alloc(), &world, Pid(3))?;
    assert_eq!(rt; child.next_job(&world), Job::Ask(Call::Exit(263), None));
    assert_eq!(rt; child.maker, Pid(2));
    assert_eq!(rt; child.vars.as_slice(), [999_999, 2].as_slice());
    image.after(&world, Reply::Number(3));
    assert_eq!(rt; image.next_job(&world), wait_of(3));
    assert!(rt; image.stands_again(&world, Reply::Again));
    image.after(&world, Reply::Again);
    assert_eq!(rt; image.next_job(&world), wait_of(3));
    image.after(&world, Reply::Child(Pid(3), WaitStatus::Exited(7)));
    assert_eq!(rt; image.next_job(&world), Job::Ask(Call::Exit(0), None));
    Ok(())
}
