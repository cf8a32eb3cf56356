//! Tables of the catalogue by their names, found by halving.
ghost use Rattle.std.specs.Prelude.{◌≡◌, ◌≤◌, MatchOption, None, Some, length};
ghost use Rattle.au_base.specs.Order.{fields_before};
ghost use Rattle.au_entries.specs.Changing.{table_fields};
ghost use Rattle.au_world.specs.Inside.{IsTablePlace};
ghost use Rattle.au_world.specs.Sights as spec;
ghost use Rattle.au_world.specs.Sights.{has_table as has};
ghost use Rattle.au_world.specs.Sound.{AreTablesInOrder};

use au_base::{TableName, is_same_table};
use au_entries::Table;

/// The table with this name, where there is one. It takes no memory.
pub fn table_named<'a>(tables: &'a [Table], name: &TableName) -> Option<&'a Table>
    requires order { AreTablesInOrder tables.now }
    ensures { MatchOption result (spec.table_named tables.now name.now ≡ None) (λ table. spec.table_named tables.now name.now ≡ Some table.now) }
{
    let place = table_place(tables, name);
    if place < tables.len() && is_same_table(&tables[place].name, name) {
        return Some(&tables[place]);
    }
    None
}

/// Whether there is a table with this name. It takes no memory.
pub fn has_table(tables: &[Table], name: &TableName) -> bool
    requires order { AreTablesInOrder tables.now }
    ensures { result ≡ has tables.now name.now }
{
    match table_named(tables, name) {
        Some(_) => true,
        None => false,
    }
}

fn table_place(tables: &[Table], name: &TableName) -> usize
    requires order { AreTablesInOrder tables.now }
    ensures bound { result ≤ length tables.now }
    ensures place { IsTablePlace name.now tables.now result }
{
    tables.partition_point(|table| is_table_before(table, name))
}

fn is_table_before(table: &Table, name: &TableName) -> bool
    ensures { result ≡ fields_before (table_fields table.now.name) (table_fields name.now) }
{
    table
        .name
        .owner
        .cmp(&name.owner)
        .then(table.name.name.cmp(&name.name))
        .is_lt()
}
