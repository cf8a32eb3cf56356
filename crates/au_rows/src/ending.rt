//! How a client's changes end.

/// How a client's changes end.
#[derive(Clone, Copy, Debug)]
pub enum Ending {
    /// They become committed.
    Settle,
    /// They go away.
    Undo,
}
