//! The vector: what a question is answered, decided on records, with the parts brought together.
#![tactic(auto)]

ghost use Rattle.std.specs.Prelude.{ℕ};
ghost use Rattle.unix_names.specs.declared.Pid.{Pid as ThePid};
ghost use Rattle.unix_calls.specs.declared.Job.{Job as TheJob};
ghost use Rattle.signal_state.specs.declared.Own.{Own as TheOwn};
ghost use Rattle.record_bag.specs.declared.bag.Bag.{Bag as TheBag};
ghost use Rattle.record_bag.specs.declared.vector.Site.{Site as TheSite};
ghost use Rattle.record_bag.specs.Decisions.{IsLawful};
ghost use Rattle.decide_law.specs.Vector.{IsVector, Fits};
ghost use Rattle.ops_vector.specs.Answer.{unix_answer};
ghost use Rattle.ops_vector.specs.Law.{QuestionsAnswered};

/// Each question that fits is answered by a step of the one kernel, by asking for what lacks, or by the way to another node.
pub fn answers_are_steps()
    ensures { QuestionsAnswered }
{}

/// So these answers are a vector of decisions, on nodes however many.
pub fn answers_are_a_vector()
    ensures { (nodes : ℕ) → IsVector nodes unix_answer }
{}

/// They keep the law of every vector: a need names what lacks, in order and each once, and only a decision changes what is held, and not under which names.
pub fn answers_are_lawful()
    ensures { (p : ThePid) (job : TheJob) (own : TheOwn) (bag : TheBag) (site : TheSite) → Fits p job own bag site → IsLawful bag (unix_answer p job own bag site) }
{}
