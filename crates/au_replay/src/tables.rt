//! Changes of tables.
ghost use Rattle.std.specs.Prelude.{◌≡◌, ◌↔◌, IsTrue};
ghost use Rattle.au_entries.specs.declared.change.Change.TheVariants as change;
ghost use Rattle.au_replay.specs.Sights.{Goes, IsSorted, shown};

use crate::finding::has_table;
use crate::shape::is_table;
use crate::sight::Sight;
use crate::users::has_user;
use au_base::{Column, TableName};

/// Whether the table may be made: it is new and no built-in one, its owner is a user, and these are
/// the columns and the key of a table.
pub fn table_goes_on(sight: &Sight<'_>, name: &TableName, columns: &[Column], key: &[u32]) -> bool
    requires order { IsSorted sight.now }
    ensures { IsTrue result ↔ Goes sight.now (change.Table name.now columns.now key.now) }
{
    !has_table(sight.tables, name)
        && !name.is_dual()
        && !name.is_trail()
        && has_user(sight, &name.owner)
        && is_table(columns, key)
}

/// Whether the table may be dropped: it is there.
pub fn table_gone_goes_on(sight: &Sight<'_>, name: &TableName) -> bool
    requires order { IsSorted sight.now }
    ensures { IsTrue result ↔ Goes sight.now (change.TableGone name.now) }
{
    has_table(sight.tables, name)
}
