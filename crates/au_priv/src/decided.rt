//! What is decided of GRANT and REVOKE.

use au_base::{Code, List, Name, Privilege, TableName};
use au_grants::GrantChange;

/// The users, roles and tables that are there, or those of them that the statement names. The
/// built-in tables aren't listed.
#[derive(Debug, Drop, PartialEq, Eq)]
pub struct Known {
    pub users: List<Name>,
    pub roles: List<Name>,
    pub tables: List<TableName>,
}

/// What is decided of a statement.
#[derive(Debug, Drop, PartialEq, Eq)]
pub struct Decided {
    /// The first refusal, or that there is none.
    pub code: Code,
    /// The system privileges that made the statement possible, in the order of their numbers.
    pub used: List<Privilege>,
    /// The changes, in their order; none where the statement is refused.
    pub grants: List<GrantChange>,
}
