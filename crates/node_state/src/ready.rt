// Those who wait for their turn.
ghost use Rattle.std.specs.Prelude.{◌≡◌, ◌↔◌, ℕ, ◌+◌, [], ◌∷◌, ◌++◌, None, IsTrue, IfSome, IfNone, IfOk, OnOk, OnErr};
ghost use Rattle.node_state.specs.Ready.{is_stopped_phase, has_image, first_movable, without_movable, is_movable, movable_count};
ghost use Rattle.ordered_table.specs.Entries.{value_at};
ghost use Rattle.node_state.specs.Counts.{IsCounted, count_at, counted, uncounted, one_less};

use courier_core::Courier;
use ordered_table::{Queue, Table};
use proc_image::Image;
use std::alloc::Global;
use std::marker::Model;
use unix_calls::Phase;
use unix_names::{NoMemory, Pid};

/// Who waits for a turn: an image that goes on with its script, or a courier that got the record for which it stood in line.
#[derive(Debug, Drop)]
pub enum Waiting {
    Image(Image),
    Courier(Courier),
}

/// Those who wait for their turn, which contracts see as their list, the next one at the front.
///
/// A push moves the first image that is not stopped; it looks past each of the others once. Whether an image of a process stands here is told by halves.
#[derive(Debug, Drop)]
pub struct ReadyQueue {
    /// Those at the front whom a push passes over.
    passed: Queue<Waiting>,
    /// Those behind them.
    others: Queue<Waiting>,
    /// How many images of each process stand here.
    counts: Table<u64>,
    /// How many images stand here that are not stopped.
    movable: usize,
}

impl Model for ReadyQueue {
    ghost use Rattle.std.specs.Prelude.{◌≡◌, ◌++◌, List, None};
    ghost use Rattle.node_state.specs.declared.ready.Waiting.{Waiting as TheWaiting};

    ghost Value = { List TheWaiting };

    ghost use Rattle.node_state.specs.Ready.{first_movable, movable_count};
    ghost use Rattle.node_state.specs.Counts.{IsCounted};

    ghost view = { λ queue. queue.passed ++ queue.others };

    ghost invariant = { λ queue. (first_movable queue.passed ≡ None) × IsCounted queue.counts (queue.passed ++ queue.others) × (queue.movable ≡ movable_count (queue.passed ++ queue.others)) };
}

fn is_stopped(phase: Phase) -> bool
    ensures { result ≡ is_stopped_phase phase }
{
    matches!(phase, Phase::Stopped)
}

fn is_movable(waiting: &Waiting) -> bool
    ensures { result ≡ is_movable waiting.now }
{
    match waiting {
        Waiting::Image(image) => !is_stopped(image.phase),
        Waiting::Courier(_) => false,
    }
}

/// How many can be moved once one more stands in the queue.
fn with_one_more(movable: usize, waiting: &Waiting) -> Result<usize, NoMemory>
    ensures { IfOk result (λ more. more ≡ movable + movable_count (waiting.now ∷ [])) }
{
    if is_movable(waiting) {
        movable.checked_add(1).ok_or(NoMemory)
    } else {
        Ok(movable)
    }
}

/// How many can be moved once one has left the queue.
fn with_one_less(movable: usize, waiting: &Waiting) -> usize
    ensures { (rest : ℕ) → movable ≡ movable_count (waiting.now ∷ []) + rest → result ≡ rest }
{
    if is_movable(waiting) {
        movable.saturating_sub(1)
    } else {
        movable
    }
}

/// How many images of a process were counted.
fn count_at(counts: &Table<u64>, pid: Pid) -> u64
    ensures { result ≡ count_at counts.now pid }
{
    counts.get(pid).copied().unwrap_or(0)
}

/// One more stands in the queue.
fn count(counts: &mut Table<u64>, waiting: &Waiting) -> Result<(), NoMemory>
    ensures ok { OnOk result (counts.new ≡ counted counts.old waiting.now) }
    ensures err { OnErr result (counts.new ≡ counts.old) }
{
    let Waiting::Image(image) = waiting else {
        return Ok(());
    };
    let Some(more) = count_at(counts, image.pid).checked_add(1) else {
        return Err(NoMemory);
    };
    match counts.put(image.pid, more) {
        Ok(_) => Ok(()),
        Err(_) => Err(NoMemory),
    }
}

/// One image of a process has left the queue.
fn uncount(counts: &mut Table<u64>, pid: Pid)
    ensures { counts.new ≡ one_less counts.old pid (value_at counts.old pid) }
{
    if let Some(known) = counts.get(pid).copied() {
        counts.replace(pid, known.saturating_sub(1));
    }
}

/// One has left the queue.
fn leave(counts: &mut Table<u64>, waiting: &Waiting)
    ensures { counts.new ≡ uncounted counts.old waiting.now }
{
    if let Waiting::Image(image) = waiting {
        uncount(counts, image.pid);
    }
}

/// Joins the end of a queue. Who finds no memory there is lost, and counts no longer.
fn join(
    queue: &mut Queue<Waiting>,
    counts: &mut Table<u64>,
    waiting: Waiting,
) -> Result<(), NoMemory>
    ensures ok { OnOk result (queue.new ≡ queue.old ++ waiting ∷ []) }
    ensures err { OnErr result (queue.new ≡ queue.old) }
    ensures counted { OnOk result (counts.new ≡ counts.old) }
    ensures uncounted { OnErr result (counts.new ≡ uncounted counts.old waiting) }
{
    match queue.push(waiting) {
        Ok(()) => Ok(()),
        Err(lost) => {
            leave(counts, &lost);
            Err(NoMemory)
        }
    }
}

/// The first of a queue that is an image which is not stopped leaves; those before it join the ones that a push passes over. Who finds no memory there is lost.
fn take_movable(
    passed: &mut Queue<Waiting>,
    others: &mut Queue<Waiting>,
    counts: &mut Table<u64>,
) -> Result<Option<Image>, NoMemory>
    requires passed { first_movable passed.old ≡ None }
    requires counted { IsCounted counts.old (passed.old ++ others.old) }
    ensures passed { first_movable passed.new ≡ None }
    ensures counted { IsCounted counts.new (passed.new ++ others.new) }
    ensures first { IfOk result (λ image. image ≡ first_movable (passed.old ++ others.old)) }
    ensures rest { OnOk result (passed.new ++ others.new ≡ without_movable (passed.old ++ others.old)) }
    ensures nobody { IfOk result (λ image. image ≡ None → passed.new ++ others.new ≡ passed.old ++ others.old) }
    ensures movable { OnErr result (movable_count (passed.new ++ others.new) ≡ movable_count (passed.old ++ others.old)) }
{
    while let Some(waiting) = others.pop() {
        match waiting {
            Waiting::Image(image) => {
                if !is_stopped(image.phase) {
                    uncount(counts, image.pid);
                    return Ok(Some(image));
                }
                join(passed, counts, Waiting::Image(image))?;
            }
            Waiting::Courier(courier) => join(passed, counts, Waiting::Courier(courier))?,
        }
    }
    Ok(None)
}

/// The first of the two parts leaves.
fn pop_first(passed: &mut Queue<Waiting>, others: &mut Queue<Waiting>) -> Option<Waiting>
    requires { first_movable passed.old ≡ None }
    ensures passed { first_movable passed.new ≡ None }
    ensures some { IfSome result (λ w. passed.old ++ others.old ≡ w ∷ (passed.new ++ others.new)) }
    ensures none { IfNone result (passed.old ++ others.old ≡ []) }
    ensures none_new { IfNone result (passed.new ++ others.new ≡ []) }
{
    match passed.pop() {
        Some(waiting) => Some(waiting),
        None => others.pop(),
    }
}

impl ReadyQueue {
    /// A queue in which nobody stands.
    pub fn new(alloc: Global) -> ReadyQueue
        ensures { result ≡ [] }
    {
        ReadyQueue {
            passed: Queue::new(alloc),
            others: Queue::new(alloc),
            counts: Table::new(alloc),
            movable: 0,
        }
    }

    /// Whether nobody stands in the queue.
    pub fn is_empty(&self) -> bool
        ensures { IsTrue result ↔ (self.now ≡ []) }
    {
        self.passed.is_empty() && self.others.is_empty()
    }

    /// Whether an image of a process stands in the queue. One that rides in a courier does not count.
    pub fn has_image(&self, pid: Pid) -> bool
        ensures { result ≡ has_image pid self.now }
    {
        count_at(&self.counts, pid) > 0
    }

    /// How many images stand in the queue that are not stopped. It takes no memory, and no walk.
    pub fn movable(&self) -> usize
        ensures { result ≡ movable_count self.now }
    {
        self.movable
    }

    /// Joins the end.
    pub fn push(&mut self, waiting: Waiting) -> Result<(), NoMemory>
        ensures ok { OnOk result (self.new ≡ self.old ++ waiting ∷ []) }
        ensures err { OnErr result (self.new ≡ self.old) }
    {
        let movable = with_one_more(self.movable, &waiting)?;
        count(&mut self.counts, &waiting)?;
        join(&mut self.others, &mut self.counts, waiting)?;
        self.movable = movable;
        Ok(())
    }

    /// The first leaves.
    pub fn pop(&mut self) -> Option<Waiting>
        ensures some { IfSome result (λ w. self.old ≡ w ∷ self.new) }
        ensures none { IfNone result (self.old ≡ []) }
        ensures none_new { IfNone result (self.new ≡ []) }
    {
        let waiting = pop_first(&mut self.passed, &mut self.others)?;
        leave(&mut self.counts, &waiting);
        self.movable = with_one_less(self.movable, &waiting);
        Some(waiting)
    }

    /// The first image that is not stopped leaves; the others keep their order.
    pub fn take_movable(&mut self) -> Result<Option<Image>, NoMemory>
        ensures first { IfOk result (λ image. image ≡ first_movable self.old) }
        ensures rest { OnOk result (self.new ≡ without_movable self.old) }
        ensures nobody { IfOk result (λ image. image ≡ None → self.new ≡ self.old) }
    {
        let image = take_movable(&mut self.passed, &mut self.others, &mut self.counts)?;
        if image.is_some() {
            self.movable = self.movable.saturating_sub(1);
        }
        Ok(image)
    }
}
