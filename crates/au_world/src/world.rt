//! What a statement sees.

use au_catalog::{Catalog, Record};
use au_grants::Grants;
use au_txn::Desk;

/// What stands before a statement: the catalogue, the grants, the committed rows with the changes
/// of open transactions, and the records of the audit trail, oldest first.
#[derive(Clone, Copy)]
pub struct World<'a> {
    pub catalog: &'a Catalog,
    pub grants: &'a Grants,
    pub desk: &'a Desk,
    pub records: &'a [Record],
}
