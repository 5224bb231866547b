// How a run ended.
ghost use Rattle.std.specs.Prelude.{◌≡◌};

/// How a run ended.
#[derive(Clone, Copy, Debug, PartialEq, Eq)]
pub enum Status {
    /// The work was done.
    Done,

    /// The tree has a fault, which was printed.
    Refused,

    /// The words are no command.
    Usage,

    /// A file could not be read.
    ReadFault,

    /// A file could not be written or removed.
    WriteFault,

    /// A line could not be printed.
    SinkFault,

    /// Memory ran out.
    NoMemory,
}

impl Status {
    ghost use Rattle.pack_cli.specs.Numbers.{number_of};

    /// The exit status of the program.
    pub fn number(self) -> u8
        ensures { result ≡ number_of self }
    {
        match self {
            Status::Done => 0,
            Status::Refused => 1,
            Status::Usage => 2,
            Status::ReadFault => 3,
            Status::WriteFault => 4,
            Status::SinkFault => 5,
            Status::NoMemory => 10,
        }
    }
}
