// What can be wrong with a file.
ghost use Rattle.std.specs.Prelude.{◌≡◌};
ghost use Rattle.script_words.specs.Kinds.{kind_name, fault_at};
ghost use Rattle.script_words.specs.declared.faults.ReadRefusal.TheVariants.{NoMemory as OutOfMemory};

use std::alloc::{AllocError, AllocFailed};
use std::fmt;
use unix_names::NoMemory;

/// What is wrong with a line of a file.
#[derive(Clone, Copy, Debug, PartialEq, Eq)]
pub enum Kind {
    /// The line is no UTF-8.
    NotUtf8,
    /// The first line that says something doesn't begin with `cluster`, or there is none.
    NoClusterLine,
    /// A word that may not stand there, is missing or is too many, or a script without its end.
    UnknownWord,
    /// A script's name that no line gives.
    UnknownScript,
    /// A fork or an exec of its own script or of a later one.
    LaterScript,
    /// A number has more than ten digits or is 2^32 or more, or the word is no number.
    BadNumber,
    /// A node that the cluster doesn't have.
    NoSuchNode,
    /// Not from 1 to 64 nodes.
    TooManyNodes,
    /// The 65th script.
    TooManyScripts,
    /// The 257th statement of a script.
    TooManyStatements,
    /// The 65th start.
    TooManyStarts,
    /// The starts so far can become more than 1,024 processes or run more than 4,096 statements.
    TooMuchWork,
    /// The turns so far are more than 200,000.
    TooManyTurns,
    /// Nothing is started.
    NoStart,
    /// A second script or a second start of one name.
    DoubleName,
    /// A name of more than 16 bytes.
    LongName,
}

impl Kind {
    /// The word by which a fault of this kind is told.
    pub fn name(self) -> &'static str
        ensures { result.now ≡ kind_name self }
    {
        match self {
            Kind::NotUtf8 => "NotUtf8",
            Kind::NoClusterLine => "NoClusterLine",
            Kind::UnknownWord => "UnknownWord",
            Kind::UnknownScript => "UnknownScript",
            Kind::LaterScript => "LaterScript",
            Kind::BadNumber => "BadNumber",
            Kind::NoSuchNode => "NoSuchNode",
            Kind::TooManyNodes => "TooManyNodes",
            Kind::TooManyScripts => "TooManyScripts",
            Kind::TooManyStatements => "TooManyStatements",
            Kind::TooManyStarts => "TooManyStarts",
            Kind::TooMuchWork => "TooMuchWork",
            Kind::TooManyTurns => "TooManyTurns",
            Kind::NoStart => "NoStart",
            Kind::DoubleName => "DoubleName",
            Kind::LongName => "LongName",
        }
    }
}

impl fmt::Display for Kind {
    ghost use Rattle.std.specs.Prelude.{Some};
    ghost use Rattle.script_words.specs.Kinds.{kind_name};

    ghost output = { λ k. Some (kind_name k) };

    fn fmt<W: fmt::Write>(&self, f: &mut fmt::Formatter<W>) -> fmt::Result {
        let name = self.name();
        write!(f, "{name}")
    }
}

/// The least fault of a file: its line, counted from 1, and what is wrong with it.
#[derive(Clone, Copy, Debug, PartialEq, Eq)]
pub struct Fault {
    pub line: u32,
    pub kind: Kind,
}

impl fmt::Display for Fault {
    ghost use Rattle.std.specs.Prelude.{Some};
    ghost use Rattle.script_words.specs.Kinds.{fault_text};

    ghost output = { λ f. Some (fault_text f) };

    fn fmt<W: fmt::Write>(&self, f: &mut fmt::Formatter<W>) -> fmt::Result {
        let line = self.line;
        let kind = self.kind;
        write!(f, "bad file: line {line}: {kind}")
    }
}

/// Why a text was not read: what is wrong with it, or that memory ran out.
#[derive(Clone, Copy, Debug, PartialEq, Eq)]
pub enum ReadRefusal<F = Fault> {
    Bad(F),
    NoMemory,
}

/// A file with a fault of this kind at this line.
pub fn bad(line: u32, kind: Kind) -> ReadRefusal
    ensures { result ≡ ReadRefusal.Bad (fault_at line kind) }
{
    ReadRefusal::Bad(Fault { line, kind })
}

impl<F> From<AllocError> for ReadRefusal<F> {
    ghost from_gives = { λ _ e. e ≡ OutOfMemory };

    fn from(_e: AllocError) -> ReadRefusal<F> {
        ReadRefusal::NoMemory
    }
}

impl<F> From<NoMemory> for ReadRefusal<F> {
    ghost from_gives = { λ _ e. e ≡ OutOfMemory };

    fn from(_e: NoMemory) -> ReadRefusal<F> {
        ReadRefusal::NoMemory
    }
}

impl<F, T: Drop> From<AllocFailed<T>> for ReadRefusal<F> {
    ghost from_gives = { λ _ e. e ≡ OutOfMemory };

    fn from(_e: AllocFailed<T>) -> ReadRefusal<F> {
        ReadRefusal::NoMemory
    }
}
