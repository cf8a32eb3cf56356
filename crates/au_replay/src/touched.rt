//! Whether what a frame touched is whole.
ghost use Rattle.std.specs.Prelude.{◌≡◌, ◌↔◌, ◌≤◌, ◌≢◌, [], IfOk, IsTrue, Some, get_or, length};
ghost use Rattle.std.specs.List.{AllByRecursion, Contains};
ghost use Rattle.std.specs.Option.{option_copied};
ghost use Rattle.au_base.specs.Limits.{TABLE_COLUMNS, TABLE_ROW_NUMBERS};
ghost use Rattle.au_base.specs.declared.cell.Cell.TheVariants.{Null};
ghost use Rattle.au_entries.specs.declared.table.Table.{Table as AnyTable};
ghost use Rattle.au_entries.specs.Lawful.{IsFounded, key_of};
ghost use Rattle.au_entries.specs.Replaying.{IsKeptTable};
ghost use Rattle.au_replay.specs.Sights.{AreOpenKeyed, IsSorted, rows_seen, shown};
ghost use Rattle.au_replay.specs.Touched.{IsWholeWhereTouched, rows_in};
ghost use Rattle.au_replay.specs.descent.Touched.{IsAlone, IsContentWhole, IsPutWhole, IsSeenWhole, IsWholeBy};
ghost use Rattle.au_txn.specs.Desks.{open_of, replayer};
ghost use Rattle.au_txn.specs.Rows.{row_at};
ghost use Rattle.au_txn.specs.Transactions.{laid_over};

use crate::finding::find_table;
use crate::fitting::fits;
use crate::sight::Sight;
use crate::whole::are_few;
use au_base::limits::{TABLE_COLUMNS, TABLE_ROW_NUMBERS};
use au_base::{Cell, ClientNo, Memory, RowNo, TableName};
use au_entries::{Change, Table};
use au_txn::Desk;
use std::alloc::Global;

/// Whether what the changes of a frame touched is whole, where the sight shows what is kept after
/// them: each row that one of them put and that is there fits the columns of its table, and has a
/// key of its own where the table has one; tables that they made have no more columns, and those
/// that they put rows into no more rows, than a table may have; and the counts of all lists are
/// within their limits. Rows are found by their tables, numbers and keys.
pub fn touched_is_whole(
    alloc: Global,
    sight: &Sight<'_>,
    changes: &[Change],
) -> Result<bool, Memory>
    requires order { IsSorted sight.now }
    requires founded { IsFounded (shown sight.now) }
    requires opened { AreOpenKeyed sight.now.tables.now sight.now.desk.now.tables }
    ensures { IfOk result (λ whole. IsTrue whole ↔ IsWholeWhereTouched changes.now (shown sight.now)) }
{
    if !are_few(sight) {
        return Ok(false);
    }
    are_whole(alloc, sight, changes)
}

// Whether what each of the changes touched is whole.
fn are_whole(alloc: Global, sight: &Sight<'_>, changes: &[Change]) -> Result<bool, Memory>
    requires order { IsSorted sight.now }
    requires founded { IsFounded (shown sight.now) }
    requires opened { AreOpenKeyed sight.now.tables.now sight.now.desk.now.tables }
    ensures { IfOk result (λ whole. IsTrue whole ↔ AllByRecursion (IsWholeBy (shown sight.now)) changes.now) }
{
    for change in changes {
        if !is_whole_by(alloc, sight, change)? {
            return Ok(false);
        }
    }
    Ok(true)
}

fn is_whole_by(alloc: Global, sight: &Sight<'_>, change: &Change) -> Result<bool, Memory>
    requires order { IsSorted sight.now }
    requires founded { IsFounded (shown sight.now) }
    requires opened { AreOpenKeyed sight.now.tables.now sight.now.desk.now.tables }
    ensures { IfOk result (λ whole. IsTrue whole ↔ IsWholeBy (shown sight.now) change.now) }
{
    match change {
        Change::Put(table, row, _) => is_put_whole(alloc, sight, table, *row),
        Change::Table(name, _, _) => Ok(has_few_columns(sight, name)),
        _ => Ok(true),
    }
}

// Whether the table, where it is there, has no more columns than a table may have.
fn has_few_columns(sight: &Sight<'_>, name: &TableName) -> bool
    requires order { IsSorted sight.now }
    ensures { IsTrue result ↔ ((found : AnyTable) → IsKeptTable (shown sight.now) name.now found → length found.columns ≤ TABLE_COLUMNS) }
{
    match find_table(sight.tables, name) {
        Some(table) => is_narrow(table),
        None => true,
    }
}

fn is_narrow(table: &Table) -> bool
    ensures { IsTrue result ↔ (length table.now.columns ≤ TABLE_COLUMNS) }
{
    table.columns.len() <= TABLE_COLUMNS
}

// Whether the row that was put, where it is there, is whole, and its table has room for it.
fn is_put_whole(
    alloc: Global,
    sight: &Sight<'_>,
    table: &TableName,
    row: RowNo,
) -> Result<bool, Memory>
    requires order { IsSorted sight.now }
    requires founded { IsFounded (shown sight.now) }
    requires opened { AreOpenKeyed sight.now.tables.now sight.now.desk.now.tables }
    ensures { IfOk result (λ whole. IsTrue whole ↔ IsPutWhole (shown sight.now) table.now row) }
{
    match find_table(sight.tables, table) {
        Some(found) => is_whole_in(alloc, sight, found, row),
        None => Ok(true),
    }
}

fn is_whole_in(alloc: Global, sight: &Sight<'_>, table: &Table, row: RowNo) -> Result<bool, Memory>
    requires there { Contains sight.now.tables.now table.now }
    requires only { (other : AnyTable) → Contains sight.now.tables.now other → other.name ≡ table.now.name → other ≡ table.now }
    requires founded { IsFounded (shown sight.now) }
    requires opened { AreOpenKeyed sight.now.tables.now sight.now.desk.now.tables }
    ensures { IfOk result (λ whole. IsTrue whole ↔ IsPutWhole (shown sight.now) table.now.name row) }
{
    au_txn::rows_stand_by_tables();
    au_txn::rows_are_what_they_answer();
    sight.desk.holds_together();
    if !has_few_rows(alloc, sight.desk, &table.name)? {
        return Ok(false);
    }
    is_seen_whole(alloc, sight, table, row)
}

// Whether the row, where it is there, fits its columns and has a key of its own.
fn is_seen_whole(
    alloc: Global,
    sight: &Sight<'_>,
    table: &Table,
    row: RowNo,
) -> Result<bool, Memory>
    requires there { Contains sight.now.tables.now table.now }
    requires only { (other : AnyTable) → Contains sight.now.tables.now other → other.name ≡ table.now.name → other ≡ table.now }
    requires founded { IsFounded (shown sight.now) }
    requires opened { AreOpenKeyed sight.now.tables.now sight.now.desk.now.tables }
    ensures { IfOk result (λ whole. IsTrue whole ↔ IsSeenWhole (rows_seen sight.now.desk.now) table.now row (row_at table.now.name row (laid_over sight.now.desk.now.rows (open_of sight.now.desk.now replayer)))) }
{
    match row_seen(sight.desk, &table.name, row) {
        Some(cells) => is_content_whole(alloc, sight, table, row, cells),
        None => Ok(true),
    }
}

// The row as replay sees it. There is none of the number 0.
fn row_seen<'a>(desk: &'a Desk, table: &TableName, row: RowNo) -> Option<&'a [Cell]>
    ensures { option_copied result ≡ row_at table.now row (laid_over desk.entry.now.rows (open_of desk.entry.now replayer)) }
{
    desk.holds_together();
    au_txn::laid_rows_answer();
    au_txn::rows_stand_by_tables();
    if row.0 == 0 {
        return None;
    }
    desk.seen(ClientNo(0), table, row)
}

fn is_content_whole(
    alloc: Global,
    sight: &Sight<'_>,
    table: &Table,
    row: RowNo,
    cells: &[Cell],
) -> Result<bool, Memory>
    requires there { Contains sight.now.tables.now table.now }
    requires only { (other : AnyTable) → Contains sight.now.tables.now other → other.name ≡ table.now.name → other ≡ table.now }
    requires founded { IsFounded (shown sight.now) }
    requires opened { AreOpenKeyed sight.now.tables.now sight.now.desk.now.tables }
    requires row { row_at table.now.name row (laid_over sight.now.desk.now.rows (open_of sight.now.desk.now replayer)) ≡ Some cells.now }
    ensures { IfOk result (λ whole. IsTrue whole ↔ IsContentWhole (rows_seen sight.now.desk.now) table.now row cells.now) }
{
    if !fits(table.columns.as_slice(), cells) {
        return Ok(false);
    }
    is_alone(alloc, sight, table, row, cells)
}

// Whether no other row of the table has the key of the cells.
fn is_alone(
    alloc: Global,
    sight: &Sight<'_>,
    table: &Table,
    row: RowNo,
    cells: &[Cell],
) -> Result<bool, Memory>
    requires there { Contains sight.now.tables.now table.now }
    requires only { (other : AnyTable) → Contains sight.now.tables.now other → other.name ≡ table.now.name → other ≡ table.now }
    requires founded { IsFounded (shown sight.now) }
    requires opened { AreOpenKeyed sight.now.tables.now sight.now.desk.now.tables }
    requires row { row_at table.now.name row (laid_over sight.now.desk.now.rows (open_of sight.now.desk.now replayer)) ≡ Some cells.now }
    ensures { IfOk result (λ alone. IsTrue alone ↔ (table.now.key ≢ [] → IsAlone table.now.key cells.now (rows_seen sight.now.desk.now) table.now.name row)) }
{
    au_txn::rows_stand_by_tables();
    au_txn::rows_are_what_they_answer();
    sight.desk.holds_together();
    if table.key.is_empty() {
        return Ok(true);
    }
    let key = key_cells(alloc, table.key.as_slice(), cells)?;
    let other = sight
        .desk
        .under_other(ClientNo(0), &table.name, key.as_slice(), row);
    Ok(other.is_none())
}

// The cells of the key's columns.
fn key_cells(alloc: Global, key: &[u32], cells: &[Cell]) -> Result<Vec<Cell>, Memory>
    ensures { IfOk result (λ found. found.items ≡ key_of key.now cells.now) }
{
    let mut found = Vec::new(alloc);
    for place in key {
        found.push(cell_at(cells, *place)?)?;
    }
    Ok(found)
}

fn cell_at(cells: &[Cell], place: u32) -> Result<Cell, Memory>
    ensures { IfOk result (λ cell. cell ≡ get_or cells.now place Null) }
{
    let place = place as usize;
    if place < cells.len() {
        Ok(cells[place].clone()?)
    } else {
        Ok(Cell::Null)
    }
}

// Whether the table has no more rows than a table may have. The numbers that it uses are counted
// already, and are as many as its rows at least.
fn has_few_rows(alloc: Global, desk: &Desk, table: &TableName) -> Result<bool, Memory>
    ensures { IfOk result (λ few. IsTrue few ↔ (length (rows_in table.now (rows_seen desk.now)) ≤ TABLE_ROW_NUMBERS)) }
{
    if uses_few_numbers(desk, table) {
        return Ok(true);
    }
    let view = desk.view(alloc, ClientNo(0), table)?;
    Ok(view.rows.as_slice().len() <= TABLE_ROW_NUMBERS as usize)
}

// Whether the table uses no more row numbers than it may have. If so, it has no more rows.
fn uses_few_numbers(desk: &Desk, table: &TableName) -> bool
    ensures { IsTrue result → length (rows_in table.now (rows_seen desk.now)) ≤ TABLE_ROW_NUMBERS }
{
    desk.holds_together();
    au_txn::rows_stand_by_tables();
    au_txn::rows_are_what_they_answer();
    au_txn::laid_rows_answer();
    let (used, _) = desk.numbers(table);
    used <= TABLE_ROW_NUMBERS
}
