//! How the program ends.

ghost use Rattle.std.specs.Prelude.{◌≡◌};
ghost use Rattle.pc_top.specs.Status.{code, status_after_fault};

use pc_io::LineFault;

/// How the program ends; its number is the exit status.
#[derive(Clone, Copy, Debug, PartialEq, Eq)]
pub enum Status {
    /// The job is done.
    Done,
    /// The words of the command line have no form of the program's.
    WrongWords,
    /// The text is refused.
    Refused,
    /// Reading failed.
    ReadFault,
    /// Writing failed.
    WriteFault,
    /// No memory was left.
    NoMemory,
    /// The input is too long.
    TooLong,
}

impl Status {
    /// The exit status.
    pub fn code(self) -> u8
        ensures { result ≡ code self }
    {
        match self {
            Status::Done => 0,
            Status::WrongWords => 2,
            Status::Refused => 3,
            Status::ReadFault => 4,
            Status::WriteFault => 5,
            Status::NoMemory => 6,
            Status::TooLong => 7,
        }
    }

    /// The status after a fault of reading.
    pub fn after_fault(fault: LineFault) -> Status
        ensures { result ≡ status_after_fault fault }
    {
        match fault {
            LineFault::ReadFault => Status::ReadFault,
            LineFault::LineTooLong | LineFault::TotalTooLong => Status::TooLong,
            LineFault::NoMemory => Status::NoMemory,
        }
    }
}
