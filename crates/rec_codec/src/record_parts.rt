//! The parts that a record is read in.

use au_base::{Action, Code, List, Name, Privilege, SessionNo, Stamp, Text};
use au_entries::RecordKind;

/// Whose event a record is of, and when it was.
#[derive(Debug, Drop)]
pub(crate) struct Origin {
    pub(crate) kind: RecordKind,
    pub(crate) session: SessionNo,
    pub(crate) entry: u32,
    pub(crate) statement: u32,
    pub(crate) stamp: Stamp,
    pub(crate) user: Name,
}

/// What was done.
#[derive(Debug, Drop)]
pub(crate) struct Deed {
    pub(crate) action: Action,
    pub(crate) schema: Option<Name>,
    pub(crate) object: Option<Name>,
    pub(crate) sql: Option<Text>,
}

/// Why there is a record, and what came of the event.
#[derive(Debug, Drop)]
pub(crate) struct Grounds {
    pub(crate) used: List<Privilege>,
    pub(crate) policies: List<Name>,
    pub(crate) fga: Option<Name>,
    pub(crate) code: Code,
}
