// The vector of decisions.
ghost use Rattle.std.specs.Prelude.{◌≡◌, IfOk, OnErr};
ghost use Rattle.record_bag.specs.Decisions.{answered};
ghost use Rattle.ops_vector.specs.Answer.{unix_answer};
ghost use Rattle.decide_law.specs.Vector.{Fits};
ghost use Rattle.ops_vector.proofs.Lawful.{unix_lawful};

use crate::happening::{first_event, happen};
use crate::work::do_job;
use decide_law::{base_need, folded};
use record_bag::{Bag, OpVector, Outcome, Site};
use signal_state::Own;
use std::alloc::Global;
use unix_calls::Job;
use unix_names::{NoMemory, Pid};

/// The calls and events of the kernel, decided on records.
#[derive(Clone, Copy)]
pub struct UnixOps;

// The answer to a question: the records of the process and of its group are asked for, then an event that is to happen comes before the job.
fn decide(
    alloc: Global,
    pid: Pid,
    job: &Job,
    own: &Own,
    bag: &mut Bag,
    site: Site,
) -> Result<Outcome, NoMemory>
    requires { Fits pid job.now own.now bag.old site }
    ensures answer { IfOk result (λ outcome. answered outcome bag.new ≡ unix_answer pid job.now own.now bag.old site) }
    ensures err { OnErr result (bag.new ≡ bag.old) }
{
    let Some(carried) = folded(pid, own, bag) else {
        return base_need(alloc, pid, bag);
    };
    match first_event(pid, own, &carried, bag) {
        Some(event) => happen(alloc, pid, event, own, bag),
        None => do_job(alloc, pid, job, own, bag, site),
    }
}

impl OpVector for UnixOps {
    ghost fits = { λ s pid job own bag site. Fits pid job own bag site };

    ghost answer = { λ s pid job own bag site. unix_answer pid job own bag site };

    fn decide(
        &self,
        alloc: Global,
        pid: Pid,
        job: &Job,
        own: &Own,
        bag: &mut Bag,
        site: Site,
    ) -> Result<Outcome, NoMemory> {
        decide(alloc, pid, job, own, bag, site)
    }

    ghost lawful = { λ s pid job own bag site put. unix_lawful pid job own bag site put };
}
