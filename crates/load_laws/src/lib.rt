//! What is true of made files by the definitions, as the contracts of functions without a body. A file is made for a seed, 1 to 64 nodes and 1 to 200 processes.
#![tactic(auto)]

ghost use Rattle.load_laws.specs.Laws.{MadeIsFile, MadeIsRead, MadeIsValid, MadeWorks, MadeWork, MadeIsOnePart, MadeIsShort};

/// A made file is of the grammar, and is read as the world that it was made for.
pub fn made_is_file()
    ensures grammar { MadeIsFile }
    ensures read { MadeIsRead }
{}

/// That world can be run, on as many nodes as were asked for.
pub fn made_is_valid()
    ensures { MadeIsValid }
{}

/// What the scripts make, and what all starts make: as many processes as were asked for, at most 200, and at most 1,816 statements.
pub fn made_work()
    ensures scripts { MadeWorks }
    ensures whole { MadeWork }
{}

/// A made file is one part, a world: no line of it begins a schedule or a history.
pub fn made_is_one_part()
    ensures { MadeIsOnePart }
{}

/// A made file is no longer than an input may be, 1,048,576 bytes.
pub fn made_is_short()
    ensures { MadeIsShort }
{}
