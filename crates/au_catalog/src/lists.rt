//! Vectors of what the catalogue has.
ghost use Rattle.std.specs.Prelude.{◌≡◌};
ghost use Rattle.au_catalog.specs.descent.Editing.{AreEmpty};

use au_base::{Name, Stamp};
use au_entries::{AuditPolicy, Enabled, FgaPolicy, Table};
use std::alloc::Global;

/// What the catalogue has, in vectors whose room contracts see.
#[derive(Debug, Drop)]
pub struct CatalogLists {
    pub users: Vec<(Name, [u8; 32])>,
    pub roles: Vec<Name>,
    pub tables: Vec<Table>,
    pub policies: Vec<AuditPolicy>,
    pub enabled: Vec<(Name, Enabled)>,
    pub fga: Vec<FgaPolicy>,
    pub archive: Option<Stamp>,
}

impl CatalogLists {
    /// Empty vectors. It takes no memory.
    pub fn new(alloc: Global) -> CatalogLists
        ensures { AreEmpty result }
    {
        CatalogLists {
            users: Vec::new(alloc),
            roles: Vec::new(alloc),
            tables: Vec::new(alloc),
            policies: Vec::new(alloc),
            enabled: Vec::new(alloc),
            fga: Vec::new(alloc),
            archive: None,
        }
    }
}
