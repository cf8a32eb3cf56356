//! Why a line has no answer.

use au_base::Memory;
use au_io::Failed;
use std::alloc::{AllocError, AllocFailed};
use std::io;

/// Why a line has no answer.
#[derive(Clone, Copy)]
pub enum Fault {
    /// There was no memory.
    Memory,
    /// A disk failed at the line itself, and not at a command.
    Disk,
    /// The line has no meaning, a part of it is missing, or no store could be made for it.
    NoCase,
}

impl From<Memory> for Fault {
    fn from(_: Memory) -> Self {
        Fault::Memory
    }
}

impl From<Failed> for Fault {
    fn from(_: Failed) -> Self {
        Fault::Disk
    }
}

impl From<AllocError> for Fault {
    fn from(_: AllocError) -> Self {
        Fault::Memory
    }
}

impl<T: Drop> From<AllocFailed<T>> for Fault {
    fn from(_: AllocFailed<T>) -> Self {
        Fault::Memory
    }
}

impl From<Fault> for io::Error {
    fn from(fault: Fault) -> Self {
        match fault {
            Fault::Memory => io::Error::from(AllocError),
            Fault::Disk => io::Error::from(io::ErrorKind::Other),
            Fault::NoCase => io::Error::from(io::ErrorKind::InvalidInput),
        }
    }
}
