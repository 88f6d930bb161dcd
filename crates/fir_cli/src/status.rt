//! How a run of the program ends.

ghost use Rattle.std.specs.Prelude.{◌≡◌};
ghost use Rattle.fir_cli.specs.Outside.{code};

/// How a run ends; its number is the program's exit status.
#[derive(Clone, Copy)]
pub enum Status {
    /// All was done.
    Done,
    /// The text is not taken.
    Refused,
    /// The words are not taken.
    Usage,
    /// The file could not be read.
    Unread,
    /// An output could not be written.
    Unwritten,
    /// Memory was wanted and not there.
    NoMemory,
    /// The trace has a bad line.
    BadTrace,
    /// The Verilog text has a fault, or a tick lacks a value.
    BadVerilog,
    /// The file is longer than the limit.
    TooLong,
}

impl Status {
    /// The exit status.
    pub fn code(self) -> u8
        ensures { result ≡ code self }
    {
        match self {
            Status::Done => 0,
            Status::Refused => 1,
            Status::Usage => 2,
            Status::Unread => 3,
            Status::Unwritten => 4,
            Status::NoMemory => 5,
            Status::BadTrace => 6,
            Status::BadVerilog => 7,
            Status::TooLong => 8,
        }
    }
}
