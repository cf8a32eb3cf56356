//! Sessions.

use au_base::{ClientNo, List, Name, SessionNo};

/// A client that is logged on.
#[derive(Debug, Drop, PartialEq, Eq)]
pub struct Session {
    pub client: ClientNo,
    pub user: Name,
    pub number: SessionNo,
    /// How many statements of it were read.
    pub statements: u32,
    /// How many records of it came to the trail.
    pub entries: u32,
    /// The results that are kept of conditions which are evaluated once a session, by the names of
    /// their policies.
    pub results: List<(Name, bool)>,
}
