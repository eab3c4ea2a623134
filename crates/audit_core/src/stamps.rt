// The judge of histories of format 2, and the stamps of entries.
ghost use Rattle.std.specs.Prelude.{◌≡◌, ◌↔◌, All, IfOk, Ok, None, length, IsTrue, unwrap_or};
ghost use Rattle.unix_calls.specs.Calls.{EntryHasNames};
ghost use Rattle.unix_calls.specs.Valid.{IsValid};
ghost use Rattle.process_table.specs.Rows.{row_of};
ghost use Rattle.kernel_model.specs.Step.{after, process_of};
ghost use Rattle.kernel_model.specs.Legal.{IsLegal};
ghost use Rattle.proc_image.specs.Follows.{after_entry};
ghost use Rattle.audit_core.specs.Judge.{IsVerdictAt};
ghost use Rattle.audit_core.specs.Table.{running_of, IsKept};
ghost use Rattle.audit_core.specs.Stamped.{IsAbove, user_of, is_of_other, judged_as, IsStampVerdictAt, IsJudgedTwo, stamped_entries};

use crate::judge::{Breach, Judge};
use histories::Stamped;
use kernel_model::{Kernel, process_of};
use std::alloc::Global;
use unix_calls::{Entry, World};
use unix_names::{NoMemory, Pid, is_living};

/// What is said of a history of format 2.
#[derive(Clone, Copy, Debug, PartialEq, Eq)]
pub enum JudgedTwo {
    /// Each entry is legal for the one kernel, each call is its process's next statement, places rise, and users are those of the processes.
    Legal,
    /// The number of the first entry that breaks a rule, counted from 1: its place is not above the place before.
    PlaceAt(u64),
    /// The number of the first entry that breaks a rule, counted from 1: its user is not that of its process.
    UserAt(u64),
    /// The number of the first entry that breaks a rule, counted from 1, with the first rule that it breaks.
    IllegalAt(u64, Breach),
}

/// A rule of a history of format 2 that an entry breaks. The place is asked first, then whether the process is known, then the user, and then the other rules of the entry.
#[derive(Clone, Copy, Debug, PartialEq, Eq)]
enum StampRule {
    /// The place isn't above the place before.
    Place,
    /// The user isn't that of the process.
    User,
    /// A rule of entries.
    Broken(Breach),
}

/// Judges a history of format 2, entry by entry. It needn't be finished.
pub fn audit_two(alloc: Global, world: &World, entries: &[Stamped]) -> Result<JudgedTwo, NoMemory>
    requires valid { IsValid world.now }
    requires names { All (λ s. EntryHasNames s.entry) entries.now }
    ensures { IfOk result (IsJudgedTwo world.now entries.now) }
{
    let mut judge = Judge::begin(alloc, world)?;
    let mut last = None;
    for (i, stamped) in entries.iter().enumerate() {
        match judge.step_two(alloc, world, last, stamped)? {
            None => last = Some(stamped.place),
            Some(rule) => return Ok(judged_as(i as u64 + 1, rule)),
        }
    }
    Ok(JudgedTwo::Legal)
}

// The judgement that names a rule that the entry of this number breaks.
fn judged_as(number: u64, rule: StampRule) -> JudgedTwo
    ensures { result ≡ judged_as number rule }
{
    match rule {
        StampRule::Place => JudgedTwo::PlaceAt(number),
        StampRule::User => JudgedTwo::UserAt(number),
        StampRule::Broken(breach) => JudgedTwo::IllegalAt(number, breach),
    }
}

impl Judge {
    // Judges the next entry, whose place is to be above the last one, and takes it in where it breaks no rule.
    fn step_two(
        &mut self,
        alloc: Global,
        world: &World,
        last: Option<u64>,
        stamped: &Stamped,
    ) -> Result<Option<StampRule>, NoMemory>
        requires valid { IsValid world.now }
        requires names { EntryHasNames stamped.now.entry }
        requires kept { IsKept world.now self.old.images }
        ensures verdict { IfOk result (IsStampVerdictAt world.now last self.old.kernel (running_of self.old.images) stamped.now) }
        ensures kernel { result ≡ Ok None → self.new.kernel ≡ after self.old.kernel stamped.now.entry }
        ensures running { result ≡ Ok None → running_of self.new.images ≡ after_entry world.now (running_of self.old.images) stamped.now.entry }
        ensures kept { result ≡ Ok None → IsKept world.now self.new.images }
    {
        if !is_above(last, stamped.place) {
            return Ok(Some(StampRule::Place));
        }
        if is_of_other(&self.kernel, process_of(&stamped.entry), stamped.uid) {
            return Ok(Some(StampRule::User));
        }
        match self.step(alloc, world, &stamped.entry)? {
            None => Ok(None),
            Some(breach) => Ok(Some(StampRule::Broken(breach))),
        }
    }
}

fn is_above(last: Option<u64>, place: u64) -> bool
    ensures { IsTrue result ↔ IsAbove last place }
{
    match last {
        None => true,
        Some(before) => before < place,
    }
}

// Whether a process lives and has another user.
fn is_of_other(kernel: &Kernel, pid: Pid, uid: u32) -> bool
    ensures { result ≡ is_of_other (row_of kernel.now pid) uid }
{
    match kernel.table().find(pid) {
        None => false,
        Some(row) => is_living(row.life) && row.uid != uid,
    }
}

/// The entries with these places and the users of their processes.
///
/// The entries are legal for the one kernel, and there is a place for each.
pub fn stamp(
    alloc: Global,
    world: &World,
    entries: &[Entry],
    places: &[u64],
) -> Result<Vec<Stamped>, NoMemory>
    requires names { All EntryHasNames entries.now }
    requires legal { IsLegal world.now entries.now }
    requires alike { length places.now ≡ length entries.now }
    ensures { IfOk result (λ v. v.items ≡ stamped_entries world.now entries.now places.now) }
{
    let mut kernel = Kernel::boot(alloc, world)?;
    let mut stamped = Vec::new(alloc);
    for (i, entry) in entries.iter().enumerate() {
        let uid = user_of(&kernel, process_of(entry));
        stamped.push(Stamped {
            place: places[i],
            uid,
            entry: *entry,
        })?;
        kernel.step(entry)?;
    }
    Ok(stamped)
}

// The user of a process, or 0 where it has no row.
fn user_of(kernel: &Kernel, pid: Pid) -> u32
    ensures { result ≡ unwrap_or (user_of kernel.now pid) 0 }
{
    match kernel.table().find(pid) {
        None => 0,
        Some(row) => row.uid,
    }
}
