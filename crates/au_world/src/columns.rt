//! The columns of a table.
ghost use Rattle.std.specs.Prelude.{◌≡◌, IfOk};
ghost use Rattle.au_world.specs.Sights as spec;
ghost use Rattle.au_world.specs.Sights.{columns_in};
ghost use Rattle.au_world.specs.Sound.{AreTablesInOrder};

use crate::built_in::{TableKind, dual_columns, kind_of, trail_columns};
use crate::finding::table_named;
use au_base::{Column, List, Memory, TableName};
use au_entries::Table;
use std::alloc::Global;

/// The columns of the table.
pub fn columns_of(
    alloc: Global,
    tables: &[Table],
    table: &TableName,
) -> Result<List<Column>, Memory>
    requires order { AreTablesInOrder tables.now }
    ensures { IfOk result (λ columns. columns ≡ spec.columns_of tables.now table.now) }
{
    match kind_of(table) {
        TableKind::Dual => dual_columns(alloc),
        TableKind::Trail => trail_columns(alloc),
        TableKind::Created => created_columns(alloc, tables, table),
    }
}

fn created_columns(
    alloc: Global,
    tables: &[Table],
    table: &TableName,
) -> Result<List<Column>, Memory>
    requires order { AreTablesInOrder tables.now }
    ensures { IfOk result (λ columns. columns ≡ columns_in (spec.table_named tables.now table.now)) }
{
    match table_named(tables, table) {
        Some(found) => Ok(found.columns.clone()?),
        None => Ok(List::new(alloc)),
    }
}
