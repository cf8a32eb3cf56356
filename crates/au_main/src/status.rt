//! How the program ends.
ghost use Rattle.std.specs.Prelude.{◌≡◌};
ghost use Rattle.au_main.specs.Status.{number_of};

use au_io::Area;
use thiserror::Error;

/// How the program ends. Its text is what the program prints on standard error.
#[derive(Clone, Copy, Debug, PartialEq, Eq, Error)]
pub enum Status {
    /// The command was done.
    #[error("records: done")]
    Done,
    /// The words are no command.
    #[error("records: usage")]
    Usage,
    /// The source failed.
    #[error("records: read fault")]
    ReadFault,
    /// The sink failed.
    #[error("records: write fault")]
    WriteFault,
    /// The disk failed.
    #[error("records: disk fault")]
    DiskFault,
    /// The selected area isn't formatted.
    #[error("records: not formatted")]
    Unformatted,
    /// The selected area is formatted already.
    #[error("records: already formatted")]
    Formatted,
    /// The journal is damaged, first at that place.
    #[error("records: damaged journal {area:?} at {at}")]
    Damaged { area: Area, at: u64 },
    /// The line is the first that is no script line; lines count from 1.
    #[error("records: bad line {0}")]
    BadLine(u64),
    /// The script has more bytes than a script may have.
    #[error("records: script too long")]
    TooLong,
    /// The lobby failed.
    #[error("records: lobby fault")]
    LobbyFault,
    /// There was no memory.
    #[error("records: memory")]
    Memory,
    /// The numbers of instances are spent.
    #[error("records: instance numbers spent")]
    Worn,
}

impl Status {
    /// The exit status of the process.
    pub fn number(self) -> u8
        ensures { result ≡ number_of self }
    {
        match self {
            Status::Done => 0,
            Status::Usage => 2,
            Status::ReadFault => 3,
            Status::WriteFault => 4,
            Status::DiskFault => 5,
            Status::Unformatted => 6,
            Status::Formatted => 7,
            Status::Damaged { .. } => 8,
            Status::BadLine(_) => 9,
            Status::TooLong => 10,
            Status::LobbyFault => 11,
            Status::Memory => 12,
            Status::Worn => 13,
        }
    }
}
