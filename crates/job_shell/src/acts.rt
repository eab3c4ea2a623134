// The statements of the shell.
ghost use Rattle.std.specs.Prelude.{◌≡◌, ◌<◌, ◌+◌, ◌^◌, true, false, ◌++◌, ◌∷◌, [], length, map, OnOk};
ghost use Rattle.job_plans.specs.Acts.{statement_of};
ghost use Rattle.job_plans.specs.Acts as act;
ghost use Rattle.job_plans.specs.Plans as spec;

use crate::stages::place_of;
use job_plans::Stage;
use unix_calls::{Arg, Statement};
use unix_names::{NoMemory, NodeId, Seq, Signal, number_of};

fn begin(stage: usize, script: usize, node: NodeId) -> Statement
    ensures { result ≡ statement_of (act.Begin stage script node) }
{
    Statement::Fork {
        var: stage,
        script,
        at: Some(node),
    }
}

fn wait(stage: usize, stopped: bool) -> Statement
    ensures stops { stopped ≡ true → result ≡ statement_of (act.Await stage) }
    ensures ends { stopped ≡ false → result ≡ statement_of (act.Reap stage) }
{
    Statement::Wait {
        sleeps: true,
        any: false,
        minus: false,
        arg: Arg::Var(stage),
        stopped,
        continued: false,
    }
}

fn join(stage: usize, first: usize) -> Statement
    ensures { result ≡ statement_of (act.Join stage first) }
{
    Statement::Setpgid {
        pid: Arg::Var(stage),
        minus: false,
        pgid: Arg::Var(first),
    }
}

/// A signal to the group of a first stage.
pub(crate) fn send(first: usize, signal: Signal) -> Statement
    ensures { result ≡ statement_of (act.Send first signal) }
{
    Statement::Kill {
        minus: true,
        arg: Arg::Var(first),
        sig: number_of(signal),
    }
}

/// Puts the steps at the end of a script by which stages are forked, from a number on.
pub(crate) fn put_begins(
    script: &mut Seq<Statement>,
    statuses: &[u8],
    first: usize,
    stages: &[Stage],
) -> Result<(), NoMemory>
    requires { first + length stages.now < 2 ^ 63 }
    ensures { OnOk result (script.new ≡ script.old ++ map statement_of (spec.begun statuses.now first stages.now)) }
{
    for (k, stage) in stages.iter().enumerate() {
        script.push(begin(first + k, place_of(stage.status, statuses), stage.node))?;
        script.push(wait(first + k, true))?;
    }
    Ok(())
}

/// Puts the steps at the end of a script by which stages get the group of the first, from a number on.
pub(crate) fn put_joins(
    script: &mut Seq<Statement>,
    first: usize,
    stages: &[Stage],
) -> Result<(), NoMemory>
    requires { first + length stages.now < 2 ^ 63 }
    ensures { OnOk result (script.new ≡ script.old ++ map statement_of (spec.joined first first stages.now)) }
{
    for (k, _stage) in stages.iter().enumerate() {
        script.push(join(first + k, first))?;
    }
    Ok(())
}

/// Puts the steps at the end of a script by which stages are waited for, from a number on.
pub(crate) fn put_reaps(
    script: &mut Seq<Statement>,
    first: usize,
    stages: &[Stage],
) -> Result<(), NoMemory>
    requires { first + length stages.now < 2 ^ 63 }
    ensures { OnOk result (script.new ≡ script.old ++ map statement_of (spec.reaped first stages.now)) }
{
    for (k, _stage) in stages.iter().enumerate() {
        script.push(wait(first + k, false))?;
    }
    Ok(())
}
