//! What is true of files and of the worlds that they mean by the definitions, as the contracts of functions without a body.
#![tactic(auto)]

ghost use Rattle.script_laws.specs.Worlds.{ReadIsValid, ReadIsWritable, FileIsRead, ReadIsFile, WrittenIsRead};

/// Each world that a part of a file means can be run.
pub fn read_is_valid()
    ensures { ReadIsValid }
{}

/// A world that a part of a file means is numbered as files number: variables by their first fork line and then by their start lines; its numbers are below 2^32, its masks are sets of signals, and it starts something.
pub fn read_is_writable()
    ensures { ReadIsWritable }
{}

/// A part of a file is read exactly where it is one of the grammar, and means the world that it spells.
pub fn grammar_is_read()
    ensures read { FileIsRead }
    ensures spelled { ReadIsFile }
{}

/// A world that files describe is read back from its file as itself.
pub fn written_is_read()
    ensures { WrittenIsRead }
{}
