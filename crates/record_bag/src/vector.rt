// Decisions over what is held.
ghost use Rattle.std.specs.Prelude.{◌≡◌, IfOk, OnErr};
ghost use Rattle.unix_names.specs.declared.Pid.{Pid as ThePid};
ghost use Rattle.unix_calls.specs.declared.Job.{Job as TheJob};
ghost use Rattle.signal_state.specs.declared.Own.{Own as TheOwn};
ghost use Rattle.record_bag.specs.declared.vector.Site.{Site as TheSite};
ghost use Rattle.record_bag.specs.declared.bag.Bag.{Bag as TheBag};
ghost use Rattle.record_bag.specs.Decisions.{Answered, answered, IsLawful};

use crate::bag::Bag;
use signal_state::Own;
use std::alloc::Global;
use unix_calls::{Entry, Job, Phase};
use unix_names::{Name, NoMemory, NodeId, Pid, Seq};
use vproc_record::Vproc;

/// Where a decision is made: at which node, and the process id that it gives out next.
#[derive(Clone, Copy, Debug, PartialEq, Eq)]
pub struct Site {
    pub node: NodeId,
    pub fresh: Pid,
}

/// A decision: the line of the history, if there is one; the process's own signals and phase from then on; the record of a process that was born; and whom to nudge, in order.
#[derive(Debug, Drop)]
pub struct Decided {
    pub entry: Option<Entry>,
    pub own: Own,
    pub phase: Phase,
    pub born: Option<Vproc>,
    pub nudges: Seq<Pid>,
}

/// What becomes of a question: it is decided; it needs the records of names that are not held; or it is to be asked at another node.
#[derive(Debug, Drop)]
pub enum Outcome {
    Done(Decided),
    Need(Seq<Name>),
    Away(NodeId),
}

/// Who decides what a process's job does to the records that are held.
///
/// `fits` says which questions (process id, job, own signals, bag, site) may be asked. `answer` is the one answer to a question that fits, with the bag that it leaves.
pub trait OpVector {
    ghost fits: { Self → ThePid → TheJob → TheOwn → TheBag → TheSite → Type 0 };

    ghost answer: { Self → ThePid → TheJob → TheOwn → TheBag → TheSite → Answered };

    /// Decides, or finds no memory and leaves the bag as it was.
    fn decide(
        &self,
        alloc: Global,
        pid: Pid,
        job: &Job,
        own: &Own,
        bag: &mut Bag,
        site: Site,
    ) -> Result<Outcome, NoMemory>
        requires { fits self.now pid job.now own.now bag.old site }
        ensures answer { IfOk result (λ outcome. answered outcome bag.new ≡ answer self.now pid job.now own.now bag.old site) }
        ensures err { OnErr result (bag.new ≡ bag.old) };

    // Each answer keeps the law: a need names at least one record, each lacking, in order and each once; a need and another node leave the bag; a decision leaves the same names held.
    ghost lawful: { (s : Self) (pid : ThePid) (job : TheJob) (own : TheOwn) (bag : TheBag) (site : TheSite) → fits s pid job own bag site → IsLawful bag (answer s pid job own bag site) };
}
