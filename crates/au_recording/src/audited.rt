//! By what events are audited.

use au_catalog::Catalog;
use au_entries::KeptResults;
use au_expr::SessionFacts;
use au_grants::Grants;
use au_pindex::Index;

/// By what an event is audited: the catalogue, with the index of its audit policies, and the grants as
/// they were before it, the results of conditions that are kept, and what conditions read of the
/// session, whose number is 0 where the event has none.
#[derive(Clone, Copy)]
pub struct Audited<'a> {
    pub catalog: &'a Catalog,
    pub index: &'a Index,
    pub grants: &'a Grants,
    pub kept: &'a KeptResults,
    pub session: &'a SessionFacts,
}
