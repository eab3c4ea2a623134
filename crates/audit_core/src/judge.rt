// The judge of histories.
ghost use Rattle.std.specs.Prelude.{◌≡◌, All, IfOk, Ok, None};
ghost use Rattle.unix_calls.specs.Calls.{EntryHasNames};
ghost use Rattle.unix_calls.specs.Valid.{IsValid};
ghost use Rattle.kernel_model.specs.Step.{after};
ghost use Rattle.kernel_model.specs.Legal.{boot};
ghost use Rattle.proc_image.specs.Follows.{first_running, after_entry};
ghost use Rattle.audit_core.specs.Judge.{IsJudged, IsVerdictAt, breach_of, with_order};
ghost use Rattle.audit_core.specs.Table.{running_of, IsKept};

use crate::scripts::{first_images, is_in_order, move_on};
use kernel_model::{Kernel, Rule, Verdict};
use ordered_table::Table;
use proc_image::Image;
use std::alloc::Global;
use unix_calls::{Entry, World};
use unix_names::NoMemory;

/// A rule of a history that an entry breaks. They are asked in this order, and the first that is broken is told.
#[derive(Clone, Copy, Debug, PartialEq, Eq)]
pub enum Breach {
    /// The process has no row, or has ended.
    UnknownProcess,
    /// The call isn't the next statement of the process's script.
    ScriptOrder,
    /// A process that calls, or is moved, is stopped or has something deliverable.
    SignalFirst,
    /// The reply isn't one that the call may get.
    WrongReply,
    /// The event may not happen.
    WrongEvent,
}

/// What is said of a history.
#[derive(Clone, Copy, Debug, PartialEq, Eq)]
pub enum Judged {
    /// Each entry is legal for the one kernel, and each call is its process's next statement.
    Legal,
    /// The number of the first entry that breaks a rule, counted from 1, with the first rule that it breaks.
    IllegalAt(u64, Breach),
}

/// The kernel and the images of all processes, as they are after the entries that were judged so far.
#[derive(Debug, Drop)]
pub struct Judge {
    pub kernel: Kernel,
    pub images: Table<Image>,
}

/// Judges a history, entry by entry. It needn't be finished.
///
/// The time for an entry grows with the number of processes, and so does the memory that is taken.
pub fn audit(alloc: Global, world: &World, entries: &[Entry]) -> Result<Judged, NoMemory>
    requires valid { IsValid world.now }
    requires names { All EntryHasNames entries.now }
    ensures { IfOk result (IsJudged world.now entries.now) }
{
    let mut judge = Judge::begin(alloc, world)?;
    for (i, entry) in entries.iter().enumerate() {
        match judge.step(alloc, world, entry)? {
            None => {}
            Some(breach) => return Ok(Judged::IllegalAt(i as u64 + 1, breach)),
        }
    }
    Ok(Judged::Legal)
}

impl Judge {
    /// The judge before the first entry.
    pub(crate) fn begin(alloc: Global, world: &World) -> Result<Judge, NoMemory>
        requires { IsValid world.now }
        ensures kernel { IfOk result (λ judge. judge.kernel ≡ boot world.now) }
        ensures running { IfOk result (λ judge. running_of judge.images ≡ first_running world.now) }
        ensures kept { IfOk result (λ judge. IsKept world.now judge.images) }
    {
        let kernel = Kernel::boot(alloc, world)?;
        let images = first_images(alloc, world)?;
        Ok(Judge { kernel, images })
    }

    /// Judges the next entry, and takes it in where it breaks no rule. An illegal entry ends the judgement, and so does want of memory: the judge is of no use afterwards.
    pub(crate) fn step(
        &mut self,
        alloc: Global,
        world: &World,
        entry: &Entry,
    ) -> Result<Option<Breach>, NoMemory>
        requires valid { IsValid world.now }
        requires names { EntryHasNames entry.now }
        requires kept { IsKept world.now self.old.images }
        ensures verdict { IfOk result (IsVerdictAt world.now self.old.kernel (running_of self.old.images) entry.now) }
        ensures kernel { result ≡ Ok None → self.new.kernel ≡ after self.old.kernel entry.now }
        ensures running { result ≡ Ok None → running_of self.new.images ≡ after_entry world.now (running_of self.old.images) entry.now }
        ensures kept { result ≡ Ok None → IsKept world.now self.new.images }
    {
        let in_order = is_in_order(&self.images, world, entry);
        let told = self.kernel.step(entry)?;
        let breach = with_order(in_order, told);
        if breach.is_none() {
            move_on(&mut self.images, alloc, world, entry)?;
        }
        Ok(breach)
    }
}

fn breach_of(rule: Rule) -> Breach
    ensures { result ≡ breach_of rule }
{
    match rule {
        Rule::UnknownProcess => Breach::UnknownProcess,
        Rule::SignalFirst => Breach::SignalFirst,
        Rule::WrongReply => Breach::WrongReply,
        Rule::WrongEvent => Breach::WrongEvent,
    }
}

// What the kernel says, with the order of the script asked right after the process.
fn with_order(in_order: bool, told: Verdict) -> Option<Breach>
    ensures { result ≡ with_order in_order told }
{
    match told {
        Verdict::Illegal(Rule::UnknownProcess) => Some(Breach::UnknownProcess),
        _ if !in_order => Some(Breach::ScriptOrder),
        Verdict::Legal => None,
        Verdict::Illegal(rule) => Some(breach_of(rule)),
    }
}
