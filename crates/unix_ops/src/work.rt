// A job that is done where nothing is to happen first.
ghost use Rattle.std.specs.Prelude.{◌≡◌, IfOk, OnErr};
ghost use Rattle.unix_calls.specs.declared.Job.TheVariants.{Ask};
ghost use Rattle.record_bag.specs.Decisions.{answered};
ghost use Rattle.decide_law.specs.Base.{HasBase};
ghost use Rattle.decide_law.specs.Effects.{on_base};
ghost use Rattle.ops_vector.specs.Answer.{call_answer, job_answer};
ghost use Rattle.decide_law.specs.Vector.{Fits};

use crate::parts::{Part, part_of};
use decide_law::done_quiet;
use migrate_core::{decide_migrate, decide_push};
use ops_fork::decide_fork;
use record_bag::{Bag, Outcome, Site};
use signal_state::Own;
use std::alloc::Global;
use unix_calls::{Call, Job, Phase};
use unix_names::{NoMemory, NodeId, Pid};

// A call, by the part that it belongs to.
fn answer_call(
    alloc: Global,
    pid: Pid,
    call: &Call,
    at: Option<NodeId>,
    own: &Own,
    bag: &mut Bag,
    site: Site,
) -> Result<Outcome, NoMemory>
    requires base { HasBase own.now pid bag.old }
    requires put { Fits pid (Ask call.now at) own.now bag.old site }
    ensures answer { IfOk result (λ outcome. answered outcome bag.new ≡ on_base (call_answer call.now at own.now bag.old site pid) pid bag.old) }
    ensures err { OnErr result (bag.new ≡ bag.old) }
{
    match part_of(call) {
        Part::Groups => ops_groups::decide_part(alloc, pid, call, own, bag),
        Part::Signals => ops_signal::decide_part(alloc, pid, call, own, bag),
        Part::ExitWait => ops_exit_wait::decide_part(alloc, pid, call, own, bag),
        Part::Fork => decide_fork(alloc, pid, at, own, bag, site),
        Part::Migrate => Ok(decide_migrate(alloc, pid, at, own, bag, site)),
    }
}

/// Does a job: a call, a look, or a push.
///
/// # Errors
/// NoMemory, after which the bag is as before.
pub fn do_job(
    alloc: Global,
    pid: Pid,
    job: &Job,
    own: &Own,
    bag: &mut Bag,
    site: Site,
) -> Result<Outcome, NoMemory>
    requires base { HasBase own.now pid bag.old }
    requires put { Fits pid job.now own.now bag.old site }
    ensures answer { IfOk result (λ outcome. answered outcome bag.new ≡ on_base (job_answer job.now own.now bag.old site pid) pid bag.old) }
    ensures err { OnErr result (bag.new ≡ bag.old) }
{
    match *job {
        Job::Ask(call, at) => answer_call(alloc, pid, &call, at, own, bag, site),
        Job::Look => Ok(done_quiet(alloc, *own, pid, bag, None, Phase::Stopped)),
        Job::Push(node) => Ok(decide_push(alloc, pid, node, own, bag, site)),
    }
}
