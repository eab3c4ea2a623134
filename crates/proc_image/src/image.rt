// Processes that run scripts.
ghost use Rattle.std.specs.Prelude.{◌≡◌, ◌+◌, ◌^◌, ◌<◌, IfOk, IsSome, OnSome, is_some, length, option_map, slice_get, slice_set};
ghost use Rattle.unix_calls.specs.Calls.{IsName};
ghost use Rattle.unix_calls.specs.Valid.{IsValid};
ghost use Rattle.proc_image.specs.Scripts.{signed, forked, node_of};
ghost use Rattle.proc_image.specs.Follows.{first_vars};

use signal_state::{Own, Sig};
use std::alloc::Global;
use unix_calls::{Arg, Call, Job, Phase, Reply, Statement, World};
use unix_names::{NOBODY, NoMemory, NodeId, Pid, Seq};

/// A process with what it carries from node to node: its pid, who forked it, its script, the number of its next statement, what its variables hold, what it waits for, and its own signals.
#[derive(Debug, Drop)]
pub struct Image {
    pub pid: Pid,
    pub maker: Pid,
    pub script: usize,
    pub position: usize,
    pub vars: Seq<u32>,
    pub phase: Phase,
    pub own: Own,
}

impl Image {
    ghost use Rattle.proc_image.specs.Scripts.{argument, next_call, next_statement, next_child, call_of, stands_again, after_reply};
    ghost use Rattle.proc_image.specs.Images.{progress_of, IsFit, start_image, child_image, next_job, JobHasNames, moved_image, with_progress};
    ghost use Rattle.unix_calls.specs.Calls.{HasNames};

    /// The image of a start, at the first statement of its script. Its variables hold the pids of the starts.
    pub fn start(alloc: Global, world: &World, k: usize) -> Result<Image, NoMemory>
        requires valid { IsValid world.now }
        requires start { k < length world.now.starts }
        ensures image { IfOk result (λ image. Some image ≡ option_map (start_image world.now) (slice_get world.now.starts k)) }
        ensures fits { IfOk result (IsFit world.now) }
    {
        let start = world.starts.as_slice()[k];
        Ok(Image {
            pid: start.pid,
            maker: NOBODY,
            script: start.script,
            position: 0,
            vars: first_vars(alloc, world)?,
            phase: Phase::Ready,
            own: Own {
                sig: Sig::fresh(),
                taken: 0,
            },
        })
    }

    /// The child that the next statement, a fork, makes. It has the variables that the caller has before the fork.
    pub fn child(&self, alloc: Global, world: &World, pid: Pid) -> Result<Image, NoMemory>
        requires valid { IsValid world.now }
        requires fits { IsFit world.now self.now }
        requires forks { IsSome (next_child world.now self.now.pid (progress_of self.now)) }
        ensures image { IfOk result (λ image. Some image ≡ option_map (child_image self.now pid) (next_child world.now self.now.pid (progress_of self.now))) }
        ensures fits { IfOk result (IsFit world.now) }
    {
        let Some(Statement::Fork { script, .. }) = self.statement(world) else {
            unreachable!()
        };
        Ok(Image {
            pid,
            maker: self.pid,
            script,
            position: 0,
            vars: self.vars.copied(alloc)?,
            phase: Phase::Ready,
            own: Own {
                sig: self.own.sig.child(),
                taken: 0,
            },
        })
    }

    /// Whether the next statement is a fork. It takes no memory.
    pub fn forks(&self, world: &World) -> bool
        ensures { result ≡ is_some (next_child world.now self.now.pid (progress_of self.now)) }
    {
        matches!(self.statement(world), Some(Statement::Fork { .. }))
    }

    /// What the process asks next: a look at its signals while it is stopped, otherwise the call of its next statement; after the last one that is `exit 0`. It takes no memory.
    pub fn next_job(&self, world: &World) -> Job
        ensures job { result ≡ next_job world.now self.now }
        ensures names { JobHasNames result }
    {
        if self.phase == Phase::Stopped {
            return Job::Look;
        }
        match self.statement(world) {
            Some(statement) => {
                let node = node_of(&statement);
                Job::Ask(self.call_of(statement), node)
            }
            None => Job::Ask(Call::Exit(0), None),
        }
    }

    /// The call of the next statement; after the last one that is `exit 0`. It takes no memory.
    pub fn next_call(&self, world: &World) -> Call
        ensures call { result ≡ next_call world.now self.now.pid (progress_of self.now) }
        ensures names { HasNames result }
    {
        match self.statement(world) {
            Some(statement) => self.call_of(statement),
            None => Call::Exit(0),
        }
    }

    /// Moves on after the reply to the next statement's call. A sleeping wait that was answered Again stands again. It takes no memory.
    pub fn after(&mut self, world: &World, reply: Reply)
        requires valid { IsValid world.now }
        requires fits { IsFit world.now self.old }
        ensures image { self.new ≡ moved_image world.now self.old reply }
        ensures fits { IsFit world.now self.new }
    {
        if let Some(statement) = self.statement(world) {
            self.pass(statement, reply);
        }
    }

    /// Whether the next statement is a sleeping wait and the reply Again, so that the process stands at it again. It takes no memory.
    pub fn stands_again(&self, world: &World, reply: Reply) -> bool
        ensures { result ≡ stands_again world.now (progress_of self.now) reply }
    {
        match self.statement(world) {
            Some(Statement::Wait { sleeps: true, .. }) => reply == Reply::Again,
            _ => false,
        }
    }

    // Moves on after the reply to a statement.
    fn pass(&mut self, statement: Statement, reply: Reply)
        requires { self.old.position + 1 < 2 ^ 64 }
        ensures { self.new ≡ with_progress self.old (after_reply reply (progress_of self.old) statement) }
    {
        match statement {
            Statement::Fork { var, .. } => {
                put(&mut self.vars, var, forked(reply));
                self.position += 1;
            }
            Statement::Exec(script) => {
                self.script = script;
                self.position = 0;
            }
            Statement::Wait { sleeps: true, .. } if reply == Reply::Again => {}
            _ => self.position += 1,
        }
    }

    // The next statement, or none past the last one.
    fn statement(&self, world: &World) -> Option<Statement>
        ensures statement { result ≡ next_statement world.now (progress_of self.now) }
        ensures room { OnSome result (self.now.position + 1 < 2 ^ 64) }
    {
        let script = world.scripts.get(self.script)?;
        let statements = script.statements.as_slice();
        if self.position < statements.len() {
            Some(statements[self.position])
        } else {
            None
        }
    }

    fn call_of(&self, statement: Statement) -> Call
        ensures call { result ≡ call_of self.now.pid (progress_of self.now) statement }
        ensures names { HasNames result }
    {
        match statement {
            Statement::Getpid => Call::Getpid,
            Statement::Getppid => Call::Getppid,
            Statement::Getpgid(arg) => Call::Getpgid(self.argument(arg)),
            Statement::Getsid(arg) => Call::Getsid(self.argument(arg)),
            Statement::Fork { .. } => Call::Fork,
            Statement::Exec(_) => Call::Exec,
            Statement::Exit(n) => Call::Exit(n),
            Statement::Wait {
                any,
                minus,
                arg,
                stopped,
                continued,
                ..
            } => Call::Waitpid {
                sel: if any {
                    -1
                } else {
                    signed(minus, self.argument(arg))
                },
                stopped,
                continued,
            },
            Statement::Kill { minus, arg, sig } => Call::Kill {
                target: signed(minus, self.argument(arg)),
                sig,
            },
            Statement::Setpgid { pid, minus, pgid } => Call::Setpgid {
                pid: self.argument(pid),
                pgid: signed(minus, self.argument(pgid)),
            },
            Statement::Setsid => Call::Setsid,
            Statement::Action { sig, act } => Call::Action { sig, act },
            Statement::Mask(set) => Call::Mask(set),
            Statement::Pending => Call::Pending,
            Statement::Migrate(_) => Call::Migrate,
        }
    }

    // The pid that a statement names.
    fn argument(&self, arg: Arg) -> u32
        ensures { result ≡ argument self.now.pid (progress_of self.now) arg }
    {
        match arg {
            Arg::Zero => 0,
            Arg::One => 1,
            Arg::Nobody => NOBODY.0,
            Arg::Own => self.pid.0,
            Arg::Maker => self.maker.0,
            Arg::Var(v) => self.vars.get(v).copied().unwrap_or(NOBODY.0),
        }
    }
}

// What the variables hold where a process starts.
fn first_vars(alloc: Global, world: &World) -> Result<Seq<u32>, NoMemory>
    ensures value { IfOk result (λ vars. vars ≡ first_vars world.now) }
    ensures len { IfOk result (λ vars. length vars ≡ world.now.vars) }
{
    let mut vars = Seq::from_vec(vec![in alloc; NOBODY.0; world.vars]?);
    let starts = world.starts.as_slice();
    for start in starts {
        put(&mut vars, start.var, start.pid.0);
    }
    Ok(vars)
}

// A variable gets a value, where there is such a variable.
fn put(vars: &mut Seq<u32>, var: usize, value: u32)
    ensures { vars.new ≡ slice_set vars.old var value }
{
    if var < vars.len() {
        vars.replace(var, value);
    }
}

// A pid, or with a minus the group of that number.
fn signed(minus: bool, pid: u32) -> i64
    ensures value { result ≡ signed minus pid }
    ensures name { IsName result }
{
    let number = i64::from(pid);
    if minus { -number } else { number }
}

// What a fork puts into its variable.
fn forked(reply: Reply) -> u32
    ensures { result ≡ forked reply }
{
    match reply {
        Reply::Number(pid) => pid,
        _ => NOBODY.0,
    }
}

// The node that a fork or a migration names.
fn node_of(statement: &Statement) -> Option<NodeId>
    ensures { result ≡ node_of statement.now }
{
    match statement {
        Statement::Fork { at, .. } => *at,
        Statement::Migrate(node) => Some(*node),
        _ => None,
    }
}
