//! Where records stand.

use au_base::{Name, SessionNo, Stamp, Text};

/// Where the records of an event stand in the trail, and of what they are.
#[derive(Debug, Drop, PartialEq, Eq)]
pub struct Place {
    /// The session's number, 0 for a refused logon.
    pub session: SessionNo,
    /// The place of the first of them among the session's records, from 1.
    pub entry: u32,
    /// The statement's place among those that the session read, from 1; 0 for a logon.
    pub statement: u32,
    pub stamp: Stamp,
    /// The object, behind its owner where it has one.
    pub object: Option<(Option<Name>, Name)>,
    /// The text as it was given, without passwords.
    pub sql: Option<Text>,
}
