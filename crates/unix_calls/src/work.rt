// How many processes a script makes, and how many statements they run.
ghost use Rattle.std.specs.Prelude.{◌≡◌, ◌+◌, ◌≤◌, length, take, min};
ghost use Rattle.unix_calls.specs.Work.{with_statement, script_work, works, work_of, together, total_work, is_little};

use crate::limits::{MOST_PROCESSES, MOST_WORK, WORK_STOP};
use crate::world::{Script, Start, Statement};

/// How much a process makes when all its forks and execs are followed: processes, itself included, and statements, an `exit 0` at the end of each script included. Both stop at 1,000,000.
#[derive(Clone, Copy, Debug, PartialEq, Eq)]
pub struct Work {
    pub processes: u32,
    pub statements: u32,
}

impl Work {
    /// No work.
    pub const NONE: Work = Work {
        processes: 0,
        statements: 0,
    };

    /// A process that runs an empty script.
    pub const EMPTY_SCRIPT: Work = Work {
        processes: 1,
        statements: 1,
    };

    /// Both together.
    pub fn and(self, other: Work) -> Work
        ensures { result ≡ together self other }
    {
        Work {
            processes: stopped_sum(self.processes, other.processes),
            statements: stopped_sum(self.statements, other.statements),
        }
    }

    /// The work of a script with one more statement, where `earlier` has the work of each earlier script.
    pub fn with_statement(self, earlier: &[Work], statement: Statement) -> Work
        ensures { result ≡ with_statement earlier.now self statement }
    {
        let one = self.and(Work {
            processes: 0,
            statements: 1,
        });
        match statement {
            Statement::Fork { script, .. } => one.and(work_of(earlier, script)),
            Statement::Exec(script) => {
                let next = work_of(earlier, script);
                one.and(Work {
                    processes: next.processes.saturating_sub(1),
                    statements: next.statements,
                })
            }
            _ => one,
        }
    }

    /// Whether a world with this work can be run.
    pub fn is_little(self) -> bool
        ensures { result ≡ is_little self }
    {
        self.processes <= MOST_PROCESSES && self.statements <= MOST_WORK
    }
}

/// The sum of two numbers, or 1,000,000 where it is above that.
fn stopped_sum(first: u32, second: u32) -> u32
    ensures { result ≡ min (first + second) WORK_STOP }
{
    first.saturating_add(second).min(WORK_STOP)
}

/// The work of a script, or none where there is no such script.
pub fn work_of(works: &[Work], script: usize) -> Work
    ensures { result ≡ work_of works.now script }
{
    works.get(script).copied().unwrap_or(Work::NONE)
}

/// The work of a script, where `earlier` has the work of each earlier script.
pub fn script_work(earlier: &[Work], statements: &[Statement]) -> Work
    ensures { result ≡ script_work earlier.now statements.now }
{
    let mut work = Work::EMPTY_SCRIPT;
    for statement in statements {
        work = work.with_statement(earlier, *statement);
    }
    work
}

/// Puts the work of each script in order into `list`, which has a place for each.
pub fn fill_works(list: &mut [Work], scripts: &[Script])
    requires { length list.old ≡ length scripts.now }
    ensures { list.new ≡ works scripts.now }
{
    for (k, script) in scripts.iter().enumerate() {
        let work = script_work(&list[..k], script.statements.as_slice());
        list[k] = work;
    }
}

/// The work of all starts together.
pub fn total_work(works: &[Work], starts: &[Start]) -> Work
    ensures { result ≡ total_work works.now starts.now }
{
    let mut total = Work::NONE;
    for start in starts {
        total = total.and(work_of(works, start.script));
    }
    total
}
