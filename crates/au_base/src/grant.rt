//! The statements GRANT and REVOKE.

use crate::{List, Name, Privilege, TableReference};

/// What GRANT and REVOKE name without ON.
#[derive(Debug, Drop, PartialEq, Eq)]
pub enum Right {
    Privilege(Privilege),
    Role(Name),
}

/// What GRANT and REVOKE name with ON.
#[derive(Clone, Copy, Debug, PartialEq, Eq)]
pub enum ObjectRight {
    Select,
    Insert,
    Update,
    Delete,
    /// The four others together.
    All,
}

/// A statement GRANT or REVOKE (SQL Language Reference, "GRANT" and "REVOKE").
#[derive(Debug, Drop, PartialEq, Eq)]
pub enum GrantStatement {
    /// `GRANT right {, right} TO name {, name} [WITH ADMIN OPTION]`
    Grant {
        rights: List<Right>,
        grantees: List<Name>,
        with_admin_option: bool,
    },
    /// `REVOKE right {, right} FROM name {, name}`
    Revoke {
        rights: List<Right>,
        grantees: List<Name>,
    },
    /// `GRANT right {, right} ON table TO name {, name}`
    GrantObject {
        rights: List<ObjectRight>,
        table: TableReference,
        grantees: List<Name>,
    },
    /// `REVOKE right {, right} ON table FROM name {, name}`
    RevokeObject {
        rights: List<ObjectRight>,
        table: TableReference,
        grantees: List<Name>,
    },
}
