// What is so of schedules by the definitions alone.
ghost use Rattle.std.specs.Prelude.{◌≡◌, ◌≤◌, ◌^◌, ℕ, List, All, Ok};
ghost use Rattle.unix_calls.specs.declared.limits.TheConstants.{MOST_TURNS};
ghost use Rattle.unix_calls.specs.declared.Turn.{Turn};
ghost use Rattle.byte_ends.specs.Text.{lines};
ghost use Rattle.run_text.specs.Faults.{LeastIsTold};
ghost use Rattle.run_text.specs.Schedule.{schedule, schedule_text, HasNodes};
ghost use Rattle.unix_calls.specs.Turns.{turns_total};

/// A schedule that was written is read back as it was: the nodes are those of the cluster, and the turns stand for 200,000 at most.
pub fn schedules_read_back()
    ensures { (nodes number : ℕ) (turns : List Turn) → nodes ≤ 2 ^ 32 → All (HasNodes nodes) turns → turns_total turns ≤ MOST_TURNS
        → schedule nodes number (lines (schedule_text turns)) ≡ Ok turns }
{}

/// The fault that is told of a schedule is its least one, and the least one is told.
pub fn least_is_told()
    ensures { LeastIsTold }
{}
