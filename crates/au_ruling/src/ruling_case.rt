//! What a statement is ruled by.

use au_base::ClientNo;
use au_catalog::Catalog;
use au_entries::Busy;
use au_expr::SessionFacts;
use au_grants::Grants;

/// What a statement is ruled by that isn't on rows: the catalogue and the grants; what sessions hold;
/// the client; and the event's user, session and stamp.
#[derive(Clone, Copy)]
pub struct RulingCase<'a> {
    pub catalog: &'a Catalog,
    pub grants: &'a Grants,
    pub busy: &'a Busy,
    pub client: ClientNo,
    pub session: &'a SessionFacts,
}
