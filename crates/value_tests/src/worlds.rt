use std::alloc::{AllocError, Global};
use std::test::Fail;
use unix_calls::{Arg, Script, Start, Statement, World};
use unix_names::{NodeId, Pid, Seq};

// A world of one node and one variable for each of eight starts.
fn world(alloc: Global) -> World {
    World {
        nodes: 1,
        vars: 32,
        scripts: Seq::new(alloc),
        starts: Seq::new(alloc),
    }
}

fn repeated(alloc: Global, statement: &Statement, times: usize) -> Result<Script, AllocError> {
    let mut statements = Seq::new(alloc);
    for _ in 0..times {
        statements.push(*statement)?;
    }
    Ok(Script { statements })
}

// A script that forks each of the first scripts.
fn forks(alloc: Global, count: usize) -> Result<Script, AllocError> {
    let mut statements = Seq::new(alloc);
    for script in 0..count {
        statements.push(Statement::Fork {
            var: 0,
            script,
            at: None,
        })?;
    }
    Ok(Script { statements })
}

fn start(script: usize, var: usize, pid: u32) -> Start {
    Start {
        node: NodeId(0),
        script,
        var,
        pid: Pid(pid),
        uid: 0,
        joined: None,
    }
}

#[test]
fn is_at_its_limits(rt: HostRuntime) -> Result<(), Fail> {
    let alloc = rt.alloc();
    let mut world = world(alloc);
    world
        .scripts
        .push(repeated(alloc, &Statement::Getpid, 256)?)?;
    world.starts.push(start(0, 1, 2))?;
    assert!(rt; world.is_valid());
    world.nodes = 64;
    assert!(rt; world.is_valid());
    world.nodes = 65;
    assert!(rt; !world.is_valid());
    world.nodes = 0;
    assert!(rt; !world.is_valid());
    world.nodes = 1;
    world
        .scripts
        .push(repeated(alloc, &Statement::Getpid, 257)?)?;
    assert!(rt; !world.is_valid());
    Ok(())
}

// Script k forks each earlier one, so it makes 2 to the k processes.
#[test]
fn makes_1024_processes(rt: HostRuntime) -> Result<(), Fail> {
    let alloc = rt.alloc();
    let mut world = world(alloc);
    for k in 0..11 {
        world.scripts.push(forks(alloc, k)?)?;
    }
    world.starts.push(start(10, 1, 2))?;
    assert!(rt; world.is_valid());
    world.starts.push(start(0, 2, 3))?;
    assert!(rt; !world.is_valid());
    Ok(())
}

// Sixteen starts of 256 statements each, the `exit 0` counted, and then one more of one statement.
#[test]
fn runs_4096_statements(rt: HostRuntime) -> Result<(), Fail> {
    let alloc = rt.alloc();
    let mut world = world(alloc);
    world
        .scripts
        .push(repeated(alloc, &Statement::Getpid, 255)?)?;
    world.scripts.push(repeated(alloc, &Statement::Getpid, 0)?)?;
    let mut pid = 2;
    for var in 0..16 {
        world.starts.push(start(0, var, pid))?;
        pid = 3 + var as u32;
    }
    assert!(rt; world.is_valid());
    world.starts.push(start(1, 16, pid))?;
    assert!(rt; !world.is_valid());
    Ok(())
}

#[test]
fn refuses_forks_of_later_scripts_and_pids_of_other_starts(rt: HostRuntime) -> Result<(), Fail> {
    let alloc = rt.alloc();
    let mut world = world(alloc);
    world.scripts.push(forks(alloc, 0)?)?;
    world.scripts.push(forks(alloc, 1)?)?;
    world.starts.push(start(1, 1, 2))?;
    assert!(rt; world.is_valid());
    world.starts.push(Start {
        joined: Some(0),
        ..start(0, 2, 3)
    })?;
    assert!(rt; world.is_valid());
    let same_var = start(0, 2, 4);
    world.starts.push(same_var)?;
    assert!(rt; !world.is_valid());
    let mut other = self::world(alloc);
    other.scripts.push(forks(alloc, 1)?)?;
    assert!(rt; !other.is_valid());
    let mut third = self::world(alloc);
    third
        .scripts
        .push(repeated(alloc, &Statement::Getpgid(Arg::Var(32)), 1)?)?;
    assert!(rt; !third.is_valid());
    Ok(())
}
