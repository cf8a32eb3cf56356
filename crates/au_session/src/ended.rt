//! How a connection ends.

/// Why a connection is served no more.
#[derive(Clone, Copy, Debug, PartialEq, Eq)]
pub enum Ended {
    /// The input ended between two requests, or the last response closes.
    Closed,
    /// The input ended inside a request.
    Cut,
    /// A request was refused with this status, and its response was given.
    Refused(u16),
    /// The connection failed.
    LinkFault,
    /// There was no memory.
    Memory,
}
