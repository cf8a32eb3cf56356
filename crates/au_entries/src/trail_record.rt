//! The records of the audit trail.

use au_base::{Action, Code, List, Name, Privilege, SessionNo, Stamp, Text};

/// What a record is of.
#[derive(Clone, Copy, Debug, PartialEq, Eq)]
pub enum RecordKind {
    /// A statement for which an audit policy demands one.
    Standard,
    /// A statement for which a fine-grained policy demands one.
    FineGrained,
}

/// A record of the audit trail (Database Reference, "UNIFIED_AUDIT_TRAIL").
#[derive(Debug, Drop, PartialEq, Eq)]
pub struct Record {
    pub kind: RecordKind,
    /// The session's number, 0 for a refused logon.
    pub session: SessionNo,
    /// Its place among the session's records, from 1.
    pub entry: u32,
    /// The statement's place among those that the session read, from 1; 0 for a logon.
    pub statement: u32,
    pub stamp: Stamp,
    pub user: Name,
    pub action: Action,
    /// The owner of the object.
    pub schema: Option<Name>,
    /// The object: a table, a user, a role, a policy or a package.
    pub object: Option<Name>,
    /// The text as it was given, without passwords.
    pub sql: Option<Text>,
    /// The system privileges that made the statement possible, in the order of their numbers.
    pub used: List<Privilege>,
    /// The policies that demand the record, in byte order.
    pub policies: List<Name>,
    /// The fine-grained policy that demands it.
    pub fga: Option<Name>,
    pub code: Code,
}
