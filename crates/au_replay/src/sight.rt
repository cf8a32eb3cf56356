//! What changes are tested against.

use au_base::Name;
use au_entries::{AuditPolicy, Enabled, FgaPolicy, Table};
use au_grants::{GrantDraft, Grants};
use au_txn::Desk;

/// The grants that are seen: those that are kept, or those of a draft, while a frame changes them.
#[derive(Clone, Copy)]
pub enum GrantsSeen<'a> {
    Held(&'a Grants),
    Draft(&'a GrantDraft),
}

/// What is kept, lent by its parts, as far as changes are tested against it: the lists of a
/// catalogue or of its draft, the grants, the rows with what replay has laid over them, and the
/// number of the instance.
#[derive(Clone, Copy)]
pub struct Sight<'a> {
    pub users: &'a [(Name, [u8; 32])],
    pub roles: &'a [Name],
    pub grants: GrantsSeen<'a>,
    pub tables: &'a [Table],
    pub desk: &'a Desk,
    pub policies: &'a [AuditPolicy],
    pub enabled: &'a [(Name, Enabled)],
    pub fga: &'a [FgaPolicy],
    pub instance: u32,
}
