//! Changes of what is kept that are ready to be made.

use au_base::{List, TableName};
use au_grants::StagedGrants;

/// What becomes of the tables that are open for rows.
#[derive(Debug, Drop)]
pub enum TableEdit {
    /// The table is open without rows. The places of its key's columns stand second.
    Open(TableName, List<u32>),
    /// The table and its rows are gone.
    Close(TableName),
}

/// Changes that `Keeping::settle` makes with no memory: those of the catalogue, of the grants and
/// of the tables that are open for rows, and the number of an instance that begins.
#[derive(Debug, Drop)]
pub struct Staged {
    pub(crate) catalog: au_catalog::Staged,
    pub(crate) grants: StagedGrants,
    pub(crate) tables: Vec<TableEdit>,
    pub(crate) instance: Option<u32>,
}
