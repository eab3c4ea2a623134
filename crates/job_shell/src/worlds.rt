// The world of a job file.
ghost use Rattle.std.specs.Prelude.{◌≡◌, ◌≤◌, ◌<◌, ◌+◌, ◌^◌, ◌++◌, ◌∷◌, [], length, map, List, IfOk, OnOk};
ghost use Rattle.job_plans.specs.Acts.{statement_of, stage_statements};
ghost use Rattle.std.specs.List.{flat_map};
ghost use Rattle.job_plans.specs.Acts as act;
ghost use Rattle.job_plans.specs.Files.{stages_of};
ghost use Rattle.job_plans.specs.Plans as plan;
ghost use Rattle.job_plans.specs.Worlds as spec;
ghost use Rattle.job_shell.specs.MethodSizes.{IsSmall};

use crate::acts::{put_begins, put_joins, put_reaps, send};
use crate::stages::{first_of, stages_in_all, stages_of, statuses_of};
use job_plans::{JobFile, JobLine};
use std::alloc::Global;
use unix_calls::{Arg, Script, Start, Statement, World};
use unix_names::{NoMemory, NodeId, Pid, Seq, Signal, number_of};

// Puts the steps at the end of a script by which a job is started.
fn put_start(
    script: &mut Seq<Statement>,
    file: &JobFile,
    statuses: &[u8],
    job: usize,
) -> Result<(), NoMemory>
    requires { IsSmall file.now }
    ensures { OnOk result (script.new ≡ script.old ++ map statement_of (plan.started statuses.now (plan.first_of file.now job) (stages_of file.now.jobs job))) }
{
    let first = first_of(file, job);
    let stages = stages_of(file, job);
    put_begins(script, statuses, first, stages)?;
    put_joins(script, first, stages)?;
    script.push(send(first, Signal::Cont))?;
    Ok(())
}

// Puts the steps at the end of a script by which the stages of a job are waited for.
fn put_waits(script: &mut Seq<Statement>, file: &JobFile, job: usize) -> Result<(), NoMemory>
    requires { IsSmall file.now }
    ensures { OnOk result (script.new ≡ script.old ++ map statement_of (plan.reaped (plan.first_of file.now job) (stages_of file.now.jobs job))) }
{
    put_reaps(script, first_of(file, job), stages_of(file, job))
}

// Puts a signal to a job's group at the end of a script.
fn put_send(
    script: &mut Seq<Statement>,
    file: &JobFile,
    job: usize,
    signal: Signal,
) -> Result<(), NoMemory>
    requires { IsSmall file.now }
    ensures { OnOk result (script.new ≡ script.old ++ statement_of (act.Send (plan.first_of file.now job) signal) ∷ []) }
{
    script.push(send(first_of(file, job), signal))?;
    Ok(())
}

// Puts what is done for a line at the end of a script.
fn put_line(
    script: &mut Seq<Statement>,
    file: &JobFile,
    statuses: &[u8],
    line: JobLine,
) -> Result<(), NoMemory>
    requires { IsSmall file.now }
    ensures { OnOk result (script.new ≡ script.old ++ map statement_of (plan.line_acts file.now.jobs statuses.now (plan.first_of file.now) line)) }
{
    match line {
        JobLine::Run(job) => {
            put_start(script, file, statuses, job)?;
            put_waits(script, file, job)
        }
        JobLine::Start(job) => put_start(script, file, statuses, job),
        JobLine::Stop(job) => put_send(script, file, job, Signal::Stop),
        JobLine::End(job) => {
            put_send(script, file, job, Signal::Term)?;
            put_send(script, file, job, Signal::Cont)
        }
        JobLine::Bring(job) => {
            put_send(script, file, job, Signal::Cont)?;
            put_waits(script, file, job)
        }
    }
}

// The shell's script.
fn shell_script(alloc: Global, file: &JobFile, statuses: &[u8]) -> Result<Seq<Statement>, NoMemory>
    requires { IsSmall file.now }
    ensures { IfOk result (λ script. script ≡ map statement_of (flat_map (plan.line_acts file.now.jobs statuses.now (plan.first_of file.now)) file.now.lines)) }
{
    let mut script = Seq::new(alloc);
    for line in file.lines.as_slice() {
        put_line(&mut script, file, statuses, *line)?;
    }
    Ok(script)
}

// The script of a stage that ends with a status.
fn stage_script(alloc: Global, status: u8) -> Result<Script, NoMemory>
    ensures { IfOk result (λ script. script ≡ spec.script_with (stage_statements status)) }
{
    let mut statements = Seq::new(alloc);
    statements.push(Statement::Kill {
        minus: false,
        arg: Arg::Own,
        sig: number_of(Signal::Stop),
    })?;
    statements.push(Statement::Getpid)?;
    statements.push(Statement::Exit(u32::from(status)))?;
    Ok(Script { statements })
}

// A script for each status.
fn stage_scripts(alloc: Global, statuses: &[u8]) -> Result<Seq<Script>, NoMemory>
    ensures { IfOk result (λ scripts. scripts ≡ map (λ e. spec.script_with (stage_statements e)) statuses.now) }
{
    let mut scripts = Seq::new(alloc);
    for status in statuses {
        scripts.push(stage_script(alloc, *status)?)?;
    }
    Ok(scripts)
}

/// The world of a job file: a script for each status, and the shell's, which is started on node 0.
///
/// # Errors
/// `NoMemory` where memory runs out.
pub fn world_of(alloc: Global, file: &JobFile) -> Result<World, NoMemory>
    requires { IsSmall file.now }
    ensures { IfOk result (λ world. world ≡ spec.world_of file.now) }
{
    let stages = stages_in_all(alloc, file)?;
    let statuses = statuses_of(alloc, &stages)?;
    let mut scripts = stage_scripts(alloc, &statuses)?;
    let script = scripts.len();
    let statements = shell_script(alloc, file, &statuses)?;
    scripts.push(Script { statements })?;
    let var = stages.len();
    let mut starts = Seq::new(alloc);
    starts.push(Start {
        node: NodeId(0),
        script,
        var,
        pid: Pid(2),
        uid: 0,
        joined: None,
    })?;
    Ok(World {
        nodes: file.nodes,
        vars: var + 1,
        scripts,
        starts,
    })
}
