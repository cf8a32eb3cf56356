//! Changes of rows.
ghost use Rattle.std.specs.Prelude.{◌≡◌, ◌↔◌, ◌≤◌, IsTrue, length};
ghost use Rattle.std.specs.List.{list_any};
ghost use Rattle.au_entries.specs.declared.change.Change.TheVariants as change;
ghost use Rattle.au_entries.specs.Changing.{is_row};
ghost use Rattle.au_replay.specs.Sights.{Goes, IsSorted, rows_seen, shown};

use crate::finding::find_table;
use crate::sight::Sight;
use au_base::{Cell, ClientNo, RowNo, TableName};
use au_entries::Table;
use au_txn::Desk;

/// Whether the row may be put: its number is at least 1, and its table is there, with as many
/// columns as there are cells.
pub fn put_goes_on(sight: &Sight<'_>, table: &TableName, row: RowNo, cells: &[Cell]) -> bool
    requires order { IsSorted sight.now }
    ensures { IsTrue result ↔ Goes sight.now (change.Put table.now row cells.now) }
{
    let number = row.0;
    if number == 0 {
        return false;
    }
    match find_table(sight.tables, table) {
        Some(found) => has_columns(found, cells),
        None => false,
    }
}

// Whether the table has as many columns as there are cells.
fn has_columns(table: &Table, cells: &[Cell]) -> bool
    ensures { IsTrue result ↔ (length cells.now ≡ length table.now.columns) }
{
    cells.len() == table.columns.len()
}

/// Whether the row may go: it is there.
pub fn gone_goes_on(sight: &Sight<'_>, table: &TableName, row: RowNo) -> bool
    ensures { IsTrue result ↔ Goes sight.now (change.Gone table.now row) }
{
    has_row(sight.desk, table, row)
}

// Whether the row is there, as replay sees it.
fn has_row(desk: &Desk, table: &TableName, row: RowNo) -> bool
    ensures { result ≡ list_any (is_row table.now row) (rows_seen desk.now) }
{
    desk.holds_together();
    au_txn::laid_rows_answer();
    au_txn::rows_stand_by_tables();
    let number = row.0;
    if number == 0 {
        return false;
    }
    has_numbered(desk, table, row)
}

fn has_numbered(desk: &Desk, table: &TableName, row: RowNo) -> bool
    requires { 1 ≤ row.0 }
    ensures { result ≡ list_any (is_row table.now row) (rows_seen desk.now) }
{
    desk.seen(ClientNo(0), table, row).is_some()
}
