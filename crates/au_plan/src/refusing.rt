//! What comes of a statement whose user has no right to its tables.
ghost use Rattle.std.specs.Prelude.{◌≡◌, []};
ghost use Rattle.au_query.specs.Answers as answers;

use crate::RowPlan;
use au_base::{List, Reply};
use au_world::TableRights;
use std::alloc::Global;

/// The plan of a statement that is refused by the rights to its tables: the code alone. It takes no
/// memory.
pub fn refused(alloc: Global, rights: TableRights) -> RowPlan
    ensures { result ≡ record { code = rights.code; used = rights.used; reply = (answers.refused rights.code).reply; changes = []; fired = [] } }
{
    let TableRights { code, used } = rights;
    RowPlan {
        code,
        used,
        reply: Reply {
            code,
            columns: List::new(alloc),
            count: 0,
            rows: List::new(alloc),
        },
        changes: List::new(alloc),
        fired: List::new(alloc),
    }
}
