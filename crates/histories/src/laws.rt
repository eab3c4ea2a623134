// What is so of the lines of a history by the definitions alone.
ghost use Rattle.std.specs.Prelude.{◌≡◌, ℕ, Bool, List, All};
ghost use Rattle.unix_calls.specs.declared.Entry.{Entry};
ghost use Rattle.unix_calls.specs.Calls.{IsEntry};
ghost use Rattle.byte_ends.specs.Text.{lines};
ghost use Rattle.histories.specs.History.{text};
ghost use Rattle.histories.specs.Reading.{Fits, Means, IsHistory};
ghost use Rattle.histories.specs.declared.stamped.Stamped.{Stamped};
ghost use Rattle.histories.specs.Laws.{MeansOrFails};
ghost use Rattle.histories.specs.Stamped.{text_two, IsStamped, FitsStamped, MeansStamped, IsHistoryTwo};

/// A line means one entry at most.
pub fn one_meaning()
    ensures { (line : List ℕ) (d e : Entry) → Means line d → Means line e → d ≡ e }
{}

/// The text that is written of some entries is a history of them.
pub fn histories_read_back()
    ensures { (entries : List Entry) (is_quiet : Bool) → All IsEntry entries → All Fits entries → IsHistory (lines (text entries is_quiet)) entries }
{}

/// A part is a history of one list of entries, or has one first bad line, and never both.
pub fn part_means_or_fails()
    ensures { MeansOrFails Means }
{}

/// A line means one stamped entry at most.
pub fn one_stamped_meaning()
    ensures { (line : List ℕ) (s t : Stamped) → MeansStamped line s → MeansStamped line t → s ≡ t }
{}

/// The text of format 2 that is written of some stamped entries is a history of them.
pub fn stamped_histories_read_back()
    ensures { (entries : List Stamped) (is_quiet : Bool) → All IsStamped entries → All FitsStamped entries → IsHistoryTwo (lines (text_two entries is_quiet)) entries }
{}

/// The lines behind `format 2` are a history of one list of stamped entries, or have one first bad line, and never both.
pub fn stamped_part_means_or_fails()
    ensures { MeansOrFails MeansStamped }
{}
