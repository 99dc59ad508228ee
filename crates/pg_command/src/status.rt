//! How the program ends.
ghost use Rattle.std.specs.Prelude.{◌≡◌};
ghost use Rattle.pg_command.specs.Lines.{exit_number};

/// How the program ends. The exit numbers are 0 to 7 in this order.
#[derive(Clone, Copy, PartialEq, Eq)]
pub enum Status {
    /// All that was asked for is written.
    Done,
    /// Some galley that was shown, or made, has no legal pagination.
    NoLegal,
    /// The words are no command.
    Usage,
    /// A file is too long or is not understood.
    Refused,
    /// A file cannot be read.
    ReadFault,
    /// The output failed.
    WriteFault,
    /// Memory ran out.
    Memory,
    /// An output text is not proved.
    NotProved,
}

impl Status {
    /// The exit number of the program.
    pub fn number(self) -> u8
        ensures { result ≡ exit_number self }
    {
        match self {
            Status::Done => 0,
            Status::NoLegal => 1,
            Status::Usage => 2,
            Status::Refused => 3,
            Status::ReadFault => 4,
            Status::WriteFault => 5,
            Status::Memory => 6,
            Status::NotProved => 7,
        }
    }
}
