// exec.
ghost use Rattle.std.specs.Prelude.{◌≡◌, IsSome};
ghost use Rattle.std.specs.Option.{option_map};
ghost use Rattle.decide_law.specs.Agrees.{vproc_at};
ghost use Rattle.decide_law.specs.Effects.{only, same, changed};
ghost use Rattle.unix_calls.specs.declared.Call.TheVariants as calls;
ghost use Rattle.record_bag.specs.Decisions.{answered};
ghost use Rattle.decide_law.specs.Base.{HasBase};
ghost use Rattle.decide_law.specs.Parts.{decide_by};
ghost use Rattle.ops_exit_wait.specs.Exec.{execed_record};
ghost use Rattle.ops_exit_wait.specs.Decide.{effect_of};

use decide_law::{finish, settle_in};
use record_bag::{Bag, Outcome, record_mut};
use signal_state::Own;
use std::alloc::Global;
use unix_calls::{Call, Entry, Phase, Reply};
use unix_names::Pid;
use vproc_record::Vproc;

fn mark(v: &mut Vproc)
    ensures { v.new ≡ execed_record v.old }
{
    v.execed = true;
}

// The record of a process tells that it has done an exec.
fn tell_execed(pid: Pid, bag: &mut Bag)
    requires { IsSome (vproc_at bag.old pid) }
    ensures bag { bag.new ≡ changed (only pid (option_map execed_record)) same bag.old }
    ensures groups { bag.new.groups ≡ bag.old.groups }
{
    if let Some(v) = record_mut(&mut bag.vprocs, pid) {
        mark(v);
    }
}

/// Decides exec: the caller has done an exec, and catches no signal. It takes no memory.
pub fn decide_exec(alloc: Global, pid: Pid, own: &Own, bag: &mut Bag) -> Outcome
    requires { HasBase own.now pid bag.old }
    ensures { answered result bag.new ≡ decide_by calls.Exec (effect_of calls.Exec) pid own.now bag.old }
{
    let mut own = *own;
    let group = settle_in(&mut own, pid, bag);
    own.sig.after_exec();
    tell_execed(pid, bag);
    let entry = Entry::Called {
        caller: pid,
        call: Call::Exec,
        reply: Reply::Fine,
    };
    finish(alloc, own, group, bag, Some(entry), Phase::Ready)
}
