//! How serving ends.

/// Why no more connections are served.
#[derive(Clone, Copy, PartialEq, Eq)]
pub enum End {
    /// Each connection that was handed out was served and came back, and no more are to be served.
    Done,
    /// The lobby failed.
    LobbyFault,
    /// There was no memory: for a request, for a response, or for any worker.
    Memory,
}
