//! Why nothing was read.
ghost use Rattle.std.specs.Prelude.{◌≡◌};

use au_base::Memory;
use std::alloc::{AllocError, AllocFailed};

/// Why a part of a frame wasn't read.
#[derive(Clone, Copy, Debug, PartialEq, Eq)]
pub enum ReadError {
    /// The bytes are no frame.
    NoFrame,
    /// There was no memory.
    Memory,
}

impl From<Memory> for ReadError {
    ghost use Rattle.rec_parts.specs.declared.read_error.ReadError.TheVariants as errors;

    ghost from_gives = { λ _ error. error ≡ errors.Memory };

    fn from(_: Memory) -> Self {
        ReadError::Memory
    }
}

impl From<AllocError> for ReadError {
    ghost use Rattle.rec_parts.specs.declared.read_error.ReadError.TheVariants as errors;

    ghost from_gives = { λ _ error. error ≡ errors.Memory };

    fn from(_: AllocError) -> Self {
        ReadError::Memory
    }
}

impl<T: Drop> From<AllocFailed<T>> for ReadError {
    ghost use Rattle.rec_parts.specs.declared.read_error.ReadError.TheVariants as errors;

    ghost from_gives = { λ _ error. error ≡ errors.Memory };

    fn from(_: AllocFailed<T>) -> Self {
        ReadError::Memory
    }
}
