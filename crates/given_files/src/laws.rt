// What is so of inputs by the definitions alone.
ghost use Rattle.given_files.specs.Laws.{HaveOneMeaning, HaveOneRun};

/// An input means one world and one schedule, or has one least fault, and not both.
pub fn meaning_is_one()
    ensures { HaveOneMeaning }
{}

/// An input that is to be run is one world and one schedule, or has one least fault, and not both.
pub fn run_is_one()
    ensures { HaveOneRun }
{}
