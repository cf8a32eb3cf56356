//! The one answer for want of memory.

use std::alloc::{AllocError, AllocFailed};
use thiserror::Error;

/// There was no memory. It may come in place of any answer of a call that takes memory; what the
/// call worked on is then as it was, unless its documentation says otherwise.
#[derive(Clone, Copy, Debug, PartialEq, Eq, Error)]
#[error("out of memory")]
pub struct Memory;

impl From<AllocError> for Memory {
    fn from(_: AllocError) -> Self {
        Memory
    }
}

impl<T: Drop> From<AllocFailed<T>> for Memory {
    fn from(_: AllocFailed<T>) -> Self {
        Memory
    }
}
