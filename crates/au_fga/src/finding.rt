//! Tables by their names, found by halving.
ghost use Rattle.std.specs.Prelude.{◌≡◌, ◌≤◌, IsTrue, MatchOption, None, Some, length, map};
ghost use Rattle.au_base.specs.Order.{fields_before, is_in_order};
ghost use Rattle.au_entries.specs.Changing.{table_fields};
ghost use Rattle.au_fga.specs.Testing.{table_of};
ghost use Rattle.au_fga.specs.descent.Rows.{IsTablePlace};

use au_base::{TableName, is_same_table};
use au_entries::Table;

/// The table of this name.
pub fn table_of<'a>(tables: &'a [Table], name: &TableName) -> Option<&'a Table>
    requires order { IsTrue (is_in_order fields_before (map (λ table. table_fields table.name) tables.now)) }
    ensures { MatchOption result (table_of tables.now name.now ≡ None) (λ table. table_of tables.now name.now ≡ Some table.now) }
{
    let place = table_place(tables, name);
    if place < tables.len() && is_same_table(&tables[place].name, name) {
        return Some(&tables[place]);
    }
    None
}

fn table_place(tables: &[Table], name: &TableName) -> usize
    requires order { IsTrue (is_in_order fields_before (map (λ table. table_fields table.name) tables.now)) }
    ensures bound { result ≤ length tables.now }
    ensures place { IsTablePlace name.now tables.now result }
{
    tables.partition_point(|table| is_table_before(table, name))
}

fn is_table_before(table: &Table, name: &TableName) -> bool
    ensures { result ≡ fields_before (table_fields table.now.name) (table_fields name.now) }
{
    table
        .name
        .owner
        .cmp(&name.owner)
        .then(table.name.name.cmp(&name.name))
        .is_lt()
}
