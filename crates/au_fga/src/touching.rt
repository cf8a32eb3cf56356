//! Touched rows.
ghost use Rattle.std.specs.Prelude.{◌≡◌, map, true};
ghost use Rattle.std.specs.List.{list_any};
ghost use Rattle.au_audit.specs.Firing.{of_table};
ghost use Rattle.au_fga.specs.Testing.{seen_rows};
ghost use Rattle.au_fga.specs.descent.Rows.{some_lent, some_of};

use au_base::{Cell, List, TableName, is_same_table};

/// Whether a row of the table is touched.
pub fn is_touched(touched: &[(TableName, List<&[Cell]>)], table: &TableName) -> bool
    ensures { result ≡ list_any (λ row. true) (of_table table.now (map seen_rows touched.now)) }
{
    some_has_row(touched, table)
}

fn some_has_row(touched: &[(TableName, List<&[Cell]>)], table: &TableName) -> bool
    ensures { result ≡ list_any (some_of (λ row. true) table.now) touched.now }
{
    touched.iter().any(|entry| has_row(entry, table))
}

fn has_row(entry: &(TableName, List<&[Cell]>), table: &TableName) -> bool
    ensures { result ≡ some_of (λ row. true) table.now entry.now }
{
    is_same_table(&entry.0, table) && is_some_row(entry.1.as_slice())
}

/// Whether there is a row.
pub fn is_some_row(rows: &[&[Cell]]) -> bool
    ensures { result ≡ some_lent (λ row. true) rows.now }
{
    !rows.is_empty()
}
