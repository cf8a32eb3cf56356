//! Tables.
ghost use Rattle.std.specs.Prelude.{◌≡◌};
ghost use Rattle.au_rows.specs.Held.{is_named};

use au_base::{List, TableName};

/// A table that is open.
#[derive(Debug, Drop)]
pub struct Table {
    pub name: TableName,
    /// The places of the key's columns, from 0. A table without a key has none.
    pub key: List<u32>,
}

/// Whether the table has this name.
pub(crate) fn is_named(table: &Option<Table>, name: &TableName) -> bool
    ensures { result ≡ is_named name.now table.now }
{
    match table {
        Some(table) => table.name.owner == name.owner && table.name.name == name.name,
        None => false,
    }
}
