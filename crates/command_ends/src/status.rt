// How the program ends.
ghost use Rattle.std.specs.Prelude.{◌≡◌};

/// How a command ends.
#[derive(Clone, Copy, Debug, PartialEq, Eq)]
pub enum Status {
    /// All was read, run and written.
    Done,
    /// The words are no command. Nothing was read or written.
    BadWords,
    /// The file has no meaning. A line that says where was written.
    BadFile,
    /// The source failed. Nothing was written.
    ReadFault,
    /// The sink failed. It took a front of the text.
    WriteFault,
    /// Memory ran out.
    NoMemory,
    /// The history is not one that the kernel and the scripts allow. A line that says where was written.
    Illegal,
    /// More bytes came than an input may have. Nothing was written.
    TooLong,
}

impl Status {
    ghost use Rattle.command_ends.specs.Status.{exit_number};

    /// The exit status of the program.
    pub fn number(self) -> u8
        ensures { result ≡ exit_number self }
    {
        match self {
            Status::Done => 0,
            Status::BadWords => 2,
            Status::BadFile => 3,
            Status::ReadFault => 4,
            Status::WriteFault => 5,
            Status::NoMemory => 6,
            Status::Illegal => 7,
            Status::TooLong => 8,
        }
    }
}
