//! Why a line has no answer.

use au_base::Memory;
use std::alloc::{AllocError, AllocFailed};
use std::io;

/// Why a line has no answer.
#[derive(Clone, Copy, Debug, PartialEq, Eq)]
pub enum Fault {
    Memory,
    /// It names no call, or has an escape without meaning, a text too few or a text too long.
    NoCase,
}

impl From<Memory> for Fault {
    fn from(_: Memory) -> Self {
        Fault::Memory
    }
}

impl From<AllocError> for Fault {
    fn from(_: AllocError) -> Self {
        Fault::Memory
    }
}

impl<T: Drop> From<AllocFailed<T>> for Fault {
    fn from(_: AllocFailed<T>) -> Self {
        Fault::Memory
    }
}

impl From<Fault> for io::Error {
    fn from(fault: Fault) -> Self {
        match fault {
            Fault::Memory => io::Error::from(AllocError),
            Fault::NoCase => io::Error::from(io::ErrorKind::InvalidInput),
        }
    }
}
