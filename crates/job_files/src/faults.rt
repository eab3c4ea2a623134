// What can be wrong with a job file.
ghost use Rattle.std.specs.Prelude.{◌≡◌};
ghost use Rattle.job_files.specs.Kinds.{kind_name};
ghost use Rattle.job_files.specs.declared.faults.JobRefusal.TheVariants.{NoMemory as OutOfMemory};

use std::alloc::AllocError;
use std::fmt;
use unix_names::NoMemory;

/// What is wrong with a line of a job file.
#[derive(Clone, Copy, Debug, PartialEq, Eq)]
pub enum JobKind {
    /// The line is no UTF-8.
    NotUtf8,
    /// The first line that says something doesn't begin with `cluster`, or there is none.
    NoClusterLine,
    /// Not from 1 to 64 nodes.
    TooManyNodes,
    /// No number of at most ten digits below 2^32, or a status above 255.
    BadNumber,
    /// A node that the cluster doesn't have.
    NoSuchNode,
    /// A name of more than 16 bytes.
    LongName,
    /// A word that may not stand there, is missing or is too many.
    UnknownWord,
    /// A second job of one name.
    DoubleName,
    /// The ninth stage of a job, or more than 63 stages so far.
    TooManyStages,
    /// No earlier line has a job of that name.
    UnknownJob,
    /// The job was started already.
    JobTwice,
    /// The job isn't started, or was waited for.
    NotInBackground,
    /// The shell would have more than 256 statements.
    TooManyStatements,
}

impl JobKind {
    /// The word by which a fault of this kind is told.
    pub fn name(self) -> &'static str
        ensures { result.now ≡ kind_name self }
    {
        match self {
            JobKind::NotUtf8 => "NotUtf8",
            JobKind::NoClusterLine => "NoClusterLine",
            JobKind::TooManyNodes => "TooManyNodes",
            JobKind::BadNumber => "BadNumber",
            JobKind::NoSuchNode => "NoSuchNode",
            JobKind::LongName => "LongName",
            JobKind::UnknownWord => "UnknownWord",
            JobKind::DoubleName => "DoubleName",
            JobKind::TooManyStages => "TooManyStages",
            JobKind::UnknownJob => "UnknownJob",
            JobKind::JobTwice => "JobTwice",
            JobKind::NotInBackground => "NotInBackground",
            JobKind::TooManyStatements => "TooManyStatements",
        }
    }
}

impl fmt::Display for JobKind {
    ghost use Rattle.std.specs.Prelude.{Some};
    ghost use Rattle.job_files.specs.Kinds.{kind_name};

    ghost output = { λ k. Some (kind_name k) };

    fn fmt<W: fmt::Write>(&self, f: &mut fmt::Formatter<W>) -> fmt::Result {
        let name = self.name();
        write!(f, "{name}")
    }
}

/// The least fault of a job file: its line, counted from 1, and what is wrong with it.
#[derive(Clone, Copy, Debug, PartialEq, Eq)]
pub struct JobFault {
    pub line: u32,
    pub kind: JobKind,
}

impl fmt::Display for JobFault {
    ghost use Rattle.std.specs.Prelude.{Some};
    ghost use Rattle.job_files.specs.Kinds.{fault_text};

    ghost output = { λ f. Some (fault_text f) };

    fn fmt<W: fmt::Write>(&self, f: &mut fmt::Formatter<W>) -> fmt::Result {
        let line = self.line;
        let kind = self.kind;
        write!(f, "bad file: line {line}: {kind}")
    }
}

/// Why a job file was not read: what is wrong with it, or that memory ran out.
#[derive(Clone, Copy, Debug, PartialEq, Eq)]
pub enum JobRefusal {
    Bad(JobFault),
    NoMemory,
}

impl From<AllocError> for JobRefusal {
    ghost from_gives = { λ _ e. e ≡ OutOfMemory };

    fn from(_e: AllocError) -> JobRefusal {
        JobRefusal::NoMemory
    }
}

impl From<NoMemory> for JobRefusal {
    ghost from_gives = { λ _ e. e ≡ OutOfMemory };

    fn from(_e: NoMemory) -> JobRefusal {
        JobRefusal::NoMemory
    }
}
