//! What a door leaves in its history.
use au_base::ClientNo;

/// What a door leaves in its history. No code makes entries: contracts alone speak of them.
#[derive(Clone, Copy, Debug)]
pub enum DoorEntry {
    /// A door was opened to a lobby that had handed out, finished and failed so often.
    Opened {
        handed: u64,
        finished: u64,
        faults: u64,
    },
    /// A connection was drawn with this number of its client.
    Drew(ClientNo),
}

/// The number that a holder of a door drew in its turn, where it drew one.
#[derive(Clone, Copy, Debug, PartialEq, Eq)]
pub struct Drawn(pub Option<ClientNo>);
