//! What a statement is decided by.

use au_base::{ClientNo, Name};
use au_entries::{Busy, Table};
use au_grants::Grants;

/// What a statement is decided by: the users, roles and tables that are there, each list in byte
/// order, and the grants; the user whose statement it is, and the client; and what sessions hold.
#[derive(Clone, Copy)]
pub struct Case<'a> {
    /// Users, each with the verifier of its password.
    pub users: &'a [(Name, [u8; 32])],
    pub roles: &'a [Name],
    pub tables: &'a [Table],
    pub grants: &'a Grants,
    pub user: &'a Name,
    pub client: ClientNo,
    pub busy: &'a Busy,
}
