// waitpid, always with WNOHANG.
ghost use Rattle.std.specs.Prelude.{◌≡◌, IfOk, OnErr};
ghost use Rattle.unix_calls.specs.declared.Call.TheVariants as calls;
ghost use Rattle.unix_calls.specs.declared.Entry.TheVariants as entries;
ghost use Rattle.unix_calls.specs.Calls.{IsName};
ghost use Rattle.record_bag.specs.Decisions.{answered};
ghost use Rattle.decide_law.specs.Base.{HasBase};
ghost use Rattle.decide_law.specs.Parts.{decide_by};
ghost use Rattle.decide_law.specs.Vector.{IsFitting};
ghost use Rattle.ops_exit_wait.specs.MethodWaitpid.{reply_by};
ghost use Rattle.ops_exit_wait.specs.Decide.{effect_of};

use crate::children::Search;
use crate::findings::{Found, find_child, wait_names};
use crate::taking::tell;
use decide_law::{finish, is_none, settle_in};
use record_bag::{Bag, Outcome};
use signal_state::Own;
use std::alloc::Global;
use unix_calls::{Call, Entry, Phase, Reply, selector_of};
use unix_names::{Errno, NoMemory, Pid};

fn reply_of(finding: Found) -> Reply
    ensures { result ≡ reply_by finding }
{
    match finding {
        Found::NoChild => Reply::Refused(Errno::ECHILD),
        Found::Nothing => Reply::Again,
        Found::Change { child, status } => Reply::Child(child, status),
        Found::End { child, status, .. } => Reply::Child(child, status),
    }
}

fn called(pid: Pid, sel: i64, stopped: bool, continued: bool, reply: Reply) -> Entry
    ensures { result ≡ entries.Called pid (calls.Waitpid sel stopped continued) reply }
{
    Entry::Called {
        caller: pid,
        call: Call::Waitpid {
            sel,
            stopped,
            continued,
        },
        reply,
    }
}

/// Decides waitpid: asks for the records of the children that are named, and for the group of the one that has ended; or answers the first that has something to report, Again where none has, and ECHILD where none is named.
///
/// # Errors
/// NoMemory where there is no room for the names that are asked for; the bag is as before.
pub fn decide_waitpid(
    alloc: Global,
    pid: Pid,
    sel: i64,
    stopped: bool,
    continued: bool,
    own: &Own,
    bag: &mut Bag,
) -> Result<Outcome, NoMemory>
    requires base { HasBase own.now pid bag.old }
    requires fits { IsFitting pid own.now bag.old }
    requires name { IsName sel }
    ensures answer { IfOk result (λ outcome. answered outcome bag.new ≡ decide_by (calls.Waitpid sel stopped continued) (effect_of (calls.Waitpid sel stopped continued)) pid own.now bag.old) }
    ensures err { OnErr result (bag.new ≡ bag.old) }
{
    let search = Search {
        selector: selector_of(sel),
        stopped,
        continued,
    };
    let names = wait_names(alloc, bag, pid, search)?;
    if !is_none(&names) {
        return Ok(Outcome::Need(names));
    }
    let mut own = *own;
    let group = settle_in(&mut own, pid, bag);
    let finding = find_child(bag, pid, search);
    tell(pid, finding, bag);
    let entry = called(pid, sel, stopped, continued, reply_of(finding));
    Ok(finish(alloc, own, group, bag, Some(entry), Phase::Ready))
}
