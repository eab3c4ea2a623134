// The starts of a part, each with its pid, and whether they make too much work.
ghost use Rattle.std.specs.Prelude.{◌≡◌, ◌+◌, ◌^◌, ◌<◌, ◌≤◌, ℕ, [], ◌∷◌, ◌++◌, true, false, List, Ok, Err, IfOk, length, OnOk};
ghost use Rattle.unix_calls.specs.Work.{total_work, is_little};
ghost use Rattle.unix_calls.specs.declared.limits.TheConstants.{MOST_NODES};
ghost use Rattle.script_words.specs.declared.faults.Fault.{Fault};
ghost use Rattle.script_words.specs.declared.faults.Kind.TheVariants.{TooMuchWork};
ghost use Rattle.script_words.specs.Kinds.{fault_at};
ghost use Rattle.script_reader.specs.Files.{with_start};
ghost use Rattle.script_reader.specs.Files as spec;
ghost use Rattle.script_reader.specs.MethodReading.{HaveNodes, judged_with};

use crate::lines::StartLine;
use crate::marks::NumberedStart;
use script_words::{Fault, Kind, ReadRefusal, bad};
use std::alloc::Global;
use unix_calls::{Start, Work, start_pid, work_of};
use unix_names::{NodeId, Seq};

/// The starts so far, and their work.
#[derive(Drop)]
struct Starts {
    list: Seq<Start>,
    total: Work,
}

impl Starts {
    // Before the first start.
    fn new(alloc: Global) -> Starts
        ensures list { result.list ≡ [] }
        ensures total { result.total ≡ record { processes = 0; statements = 0 } }
    {
        Starts {
            list: Seq::new(alloc),
            total: Work::NONE,
        }
    }

    // Takes one more start, unless there is too much work with it. `works` has the work of each script.
    fn add(&mut self, works: &[Work], start: NumberedStart) -> Result<(), ReadRefusal>
        requires node { start.line.node < MOST_NODES }
        requires few { length self.old.list < 2 ^ 31 }
        requires total { self.old.total ≡ total_work works.now self.old.list }
        ensures list { OnOk result (self.new.list ≡ with_start self.old.list start.line) }
        ensures total { OnOk result (self.new.total ≡ total_work works.now self.new.list) }
        ensures little { OnOk result (is_little (total_work works.now (with_start self.old.list start.line)) ≡ true) }
        ensures bad { (fault : Fault) → result ≡ Err (ReadRefusal.Bad fault)
            → (fault ≡ fault_at start.number TooMuchWork) × (is_little (total_work works.now (with_start self.old.list start.line)) ≡ false) }
    {
        let total = self.total.and(work_of(works, start.line.script));
        if !total.is_little() {
            return Err(bad(start.number, Kind::TooMuchWork));
        }
        let next = start_of(self.list.as_slice(), start.line);
        self.list.push(next)?;
        self.total = total;
        Ok(())
    }
}

/// The starts of a part, or its first fault: a line's own, or too much work. `works` has the work of each script.
pub fn judged(
    alloc: Global,
    works: &[Work],
    marked: &[NumberedStart],
    fault: Option<Fault>,
) -> Result<Seq<Start>, ReadRefusal>
    requires nodes { HaveNodes marked.now }
    requires few { length marked.now < 2 ^ 31 }
    ensures starts { IfOk result (λ starts. (number : ℕ) → judged_with works.now [] marked.now fault number [] ≡ Ok starts) }
    ensures bad { (least : Fault) → result ≡ Err (ReadRefusal.Bad least)
        → (number : ℕ) → judged_with works.now [] marked.now fault number [] ≡ Err least }
{
    let mut starts = Starts::new(alloc);
    for start in marked {
        starts.add(works, *start)?;
    }
    match fault {
        Some(fault) => Err(ReadRefusal::Bad(fault)),
        None => Ok(starts.list),
    }
}

// A start behind earlier ones, with its pid.
#[tactic(auto, unfolding(crate::specs::Files::start_of))]
fn start_of(earlier: &[Start], line: StartLine) -> Start
    requires few { length earlier.now < 2 ^ 31 }
    requires node { line.node < MOST_NODES }
    ensures { result ≡ spec.start_of earlier.now line }
{
    let node = NodeId(line.node);
    Start {
        node,
        script: line.script,
        var: line.var,
        pid: start_pid(node, earlier),
        uid: line.uid,
        joined: line.joined,
    }
}
