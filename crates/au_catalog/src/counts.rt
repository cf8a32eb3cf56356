//! How many entries the lists of a catalogue have.
ghost use Rattle.std.specs.Prelude.{◌≡◌};
ghost use Rattle.au_catalog.specs.descent.Editing.{counts_in};

use crate::catalog::Catalog;

/// How many entries each list of a catalogue has.
#[derive(Clone, Copy, Debug)]
pub struct Counts {
    pub users: usize,
    pub roles: usize,
    pub tables: usize,
    pub policies: usize,
    pub enabled: usize,
    pub fga: usize,
}

/// How many entries each list of the catalogue has.
pub fn counts_in(catalog: &Catalog) -> Counts
    ensures { result ≡ counts_in catalog.now }
{
    Counts {
        users: catalog.users.len(),
        roles: catalog.roles.len(),
        tables: catalog.tables.len(),
        policies: catalog.policies.len(),
        enabled: catalog.enabled.len(),
        fga: catalog.fga.len(),
    }
}
