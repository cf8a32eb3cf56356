//! The columns of a table by their names.
ghost use Rattle.std.specs.Prelude.{◌≡◌};
ghost use Rattle.std.specs.Option.{option_copied};
ghost use Rattle.au_modify.specs.Columns as spec;
ghost use Rattle.au_world.specs.Sights as sights;

use au_base::{Column, Name, TableName, is_same_table};
use au_entries::Table;

/// The table with this name, where there is one. It takes no memory.
pub fn table_named<'a>(tables: &'a [Table], name: &TableName) -> Option<&'a Table>
    ensures { option_copied result ≡ sights.table_named tables.now name.now }
{
    tables.iter().find(|table| is_same_table(&table.name, name))
}

/// The columns of the table with this name, none where it isn't there. It takes no memory.
pub fn columns_in<'a>(tables: &'a [Table], name: &TableName) -> &'a [Column]
    ensures { result.now ≡ sights.columns_in (sights.table_named tables.now name.now) }
{
    match table_named(tables, name) {
        Some(table) => table.columns.as_slice(),
        None => &[],
    }
}

/// The column of this name, where there is one. It takes no memory.
pub fn column_called<'a>(columns: &'a [Column], name: &Name) -> Option<&'a Column>
    ensures { option_copied result ≡ spec.column_called columns.now name.now }
{
    columns.iter().find(|column| column.name == *name)
}

/// Whether a column has this name. It takes no memory.
pub fn has_column(columns: &[Column], name: &Name) -> bool
    ensures { result ≡ spec.has_column columns.now name.now }
{
    columns.iter().any(|column| column.name == *name)
}
