//! The rows of a desk as a client sees them, table by table.
ghost use Rattle.std.specs.Prelude.{◌≡◌, ◌≤◌, ◌<◌, ◌+◌, ◌++◌, ◌^◌, ◌∷◌, [], IfOk, OnErr, OnOk, length, map};
ghost use Rattle.std.specs.List.{AllByRecursion};
ghost use Rattle.au_entries.specs.Imaging.{row_change};
ghost use Rattle.au_image.specs.Image.{IsDeskOf, kept_rows, open_table, rows_seen_by};
ghost use Rattle.au_image.specs.descent.Rows.{lent_change, row_of, rows_by_tables, rows_of, seen_by};
ghost use Rattle.au_rows.specs.Held.{lent};
ghost use Rattle.au_txn.specs.Desks.{replayer};
ghost use Rattle.rec_codec.specs.Changes.{IsChangeSpellable};
ghost use Rattle.rec_codec.specs.Images.{Wrote};

use crate::imaging::write_change;
use au_base::{Cell, ClientNo, List, Memory, RowNo, TableName};
use au_catalog::{Change, Table};
use au_txn::Desk;
use rec_codec::{ImageWriter, writes_join};
use std::alloc::Global;

/// A committed row: its table, its number and its cells.
type KeptRow = (TableName, RowNo, List<Cell>);

/// How many rows the client sees. More than four bytes can count answer `Memory`.
pub(crate) fn count_rows(
    alloc: Global,
    desk: &Desk,
    client: ClientNo,
    tables: &[Table],
) -> Result<u32, Memory>
    requires { desk.now.tables ≡ map open_table tables.now }
    ensures { IfOk result (λ count. count ≡ length (rows_seen_by client desk.now)) }
{
    seen_stand_by_tables(desk, client, tables);
    count_by_tables(alloc, desk, client, tables)
}

// The rows that the client sees are those of the tables. It does nothing, and states it for its
// callers.
fn seen_stand_by_tables(desk: &Desk, client: ClientNo, tables: &[Table])
    requires { desk.now.tables ≡ map open_table tables.now }
    ensures { rows_by_tables (seen_by client desk.now) tables.now ≡ rows_seen_by client desk.now }
{
    au_txn::rows_stand_by_tables();
    au_txn::rows_are_what_they_answer();
    au_txn::laid_rows_answer();
    desk.holds_together();
    let _client = client;
    let _tables = tables;
}

fn count_by_tables(
    alloc: Global,
    desk: &Desk,
    client: ClientNo,
    tables: &[Table],
) -> Result<u32, Memory>
    ensures { IfOk result (λ count. count ≡ length (rows_by_tables (seen_by client desk.now) tables.now)) }
{
    let mut count = 0;
    for table in tables {
        count = sum_of(count, count_in(alloc, desk, client, table)?)?;
    }
    Ok(count)
}

fn count_in(alloc: Global, desk: &Desk, client: ClientNo, table: &Table) -> Result<usize, Memory>
    ensures { IfOk result (λ count. count ≡ length (rows_of (seen_by client desk.now) table.now)) }
{
    let view = desk.view(alloc, client, &table.name)?;
    Ok(view.rows.as_slice().len())
}

// An image counts its changes in four bytes.
fn sum_of(count: u32, more: usize) -> Result<u32, Memory>
    ensures ok { IfOk result (λ sum. sum ≡ count + more) }
    ensures err { OnErr result (2 ^ 32 ≤ count + more) }
{
    if more > (u32::MAX - count) as usize {
        return Err(Memory);
    }
    Ok(count + more as u32)
}

/// Writes the rows that the client sees, each as the change that puts it.
pub(crate) fn write_rows(
    alloc: Global,
    writer: &mut ImageWriter,
    desk: &Desk,
    client: ClientNo,
    tables: &[Table],
) -> Result<(), Memory>
    requires desk { desk.now.tables ≡ map open_table tables.now }
    requires left { length (rows_seen_by client desk.now) ≤ writer.old.changes }
    requires spellable { AllByRecursion IsChangeSpellable (map row_change (rows_seen_by client desk.now)) }
    ensures { OnOk result (Wrote writer.old writer.new (map row_change (rows_seen_by client desk.now)) []) }
{
    seen_stand_by_tables(desk, client, tables);
    write_by_tables(alloc, writer, desk, client, tables)
}

fn write_by_tables(
    alloc: Global,
    writer: &mut ImageWriter,
    desk: &Desk,
    client: ClientNo,
    tables: &[Table],
) -> Result<(), Memory>
    requires left { length (rows_by_tables (seen_by client desk.now) tables.now) ≤ writer.old.changes }
    requires spellable { AllByRecursion IsChangeSpellable (map row_change (rows_by_tables (seen_by client desk.now) tables.now)) }
    ensures { OnOk result (Wrote writer.old writer.new (map row_change (rows_by_tables (seen_by client desk.now) tables.now)) []) }
{
    writes_join();
    for table in tables {
        write_table_rows(alloc, writer, desk, client, table)?;
    }
    Ok(())
}

fn write_table_rows(
    alloc: Global,
    writer: &mut ImageWriter,
    desk: &Desk,
    client: ClientNo,
    table: &Table,
) -> Result<(), Memory>
    requires left { length (rows_of (seen_by client desk.now) table.now) ≤ writer.old.changes }
    requires spellable { AllByRecursion IsChangeSpellable (map row_change (rows_of (seen_by client desk.now) table.now)) }
    ensures { OnOk result (Wrote writer.old writer.new (map row_change (rows_of (seen_by client desk.now) table.now)) []) }
{
    let view = desk.view(alloc, client, &table.name)?;
    write_view(alloc, writer, &table.name, view.rows.as_slice())
}

fn write_view(
    alloc: Global,
    writer: &mut ImageWriter,
    table: &TableName,
    rows: &[(RowNo, &[Cell])],
) -> Result<(), Memory>
    requires left { length rows.now ≤ writer.old.changes }
    requires spellable { AllByRecursion IsChangeSpellable (map (lent_change table.now) rows.now) }
    ensures { OnOk result (Wrote writer.old writer.new (map (lent_change table.now) rows.now) []) }
{
    writes_join();
    for (row, cells) in rows {
        write_row(alloc, writer, table, *row, cells)?;
    }
    Ok(())
}

fn write_row(
    alloc: Global,
    writer: &mut ImageWriter,
    table: &TableName,
    row: RowNo,
    cells: &[Cell],
) -> Result<(), Memory>
    requires left { 0 < writer.old.changes }
    requires spellable { IsChangeSpellable (row_change (table.now, row, cells.now)) }
    ensures { OnOk result (Wrote writer.old writer.new (row_change (table.now, row, cells.now) ∷ []) []) }
{
    let change = put_of(alloc, table, row, cells)?;
    write_change(writer, &change)
}

fn put_of(alloc: Global, table: &TableName, row: RowNo, cells: &[Cell]) -> Result<Change, Memory>
    ensures { IfOk result (λ change. change ≡ row_change (table.now, row, cells.now)) }
{
    let name = table.clone()?;
    let copy = copy_cells(alloc, cells)?;
    Ok(Change::Put(name, row, copy))
}

fn copy_cells(alloc: Global, cells: &[Cell]) -> Result<List<Cell>, Memory>
    ensures { IfOk result (λ copy. copy ≡ cells.now) }
{
    let mut copy = List::new(alloc);
    for cell in cells {
        copy.push(cell.clone()?)?;
    }
    Ok(copy)
}

/// A copy of the committed rows of the desk, by table and number.
pub fn copy_rows(alloc: Global, desk: &Desk, tables: &[Table]) -> Result<List<KeptRow>, Memory>
    requires { IsDeskOf tables.now desk.now }
    ensures { IfOk result (λ rows. rows ≡ kept_rows desk.now) }
{
    seen_stand_by_tables(desk, ClientNo(0), tables);
    copy_by_tables(alloc, desk, tables)
}

// The client by which rows are replayed has no changes, and sees what is committed.
fn copy_by_tables(alloc: Global, desk: &Desk, tables: &[Table]) -> Result<List<KeptRow>, Memory>
    ensures { IfOk result (λ rows. rows ≡ rows_by_tables (seen_by replayer desk.now) tables.now) }
{
    let mut rows = List::new(alloc);
    for table in tables {
        copy_table(alloc, desk, table, &mut rows)?;
    }
    Ok(rows)
}

fn copy_table(
    alloc: Global,
    desk: &Desk,
    table: &Table,
    rows: &mut List<KeptRow>,
) -> Result<(), Memory>
    ensures { OnOk result (rows.new ≡ rows.old ++ rows_of (seen_by replayer desk.now) table.now) }
{
    let view = desk.view(alloc, ClientNo(0), &table.name)?;
    push_view(alloc, &table.name, view.rows.as_slice(), rows)
}

fn push_view(
    alloc: Global,
    table: &TableName,
    view: &[(RowNo, &[Cell])],
    rows: &mut List<KeptRow>,
) -> Result<(), Memory>
    ensures { OnOk result (rows.new ≡ rows.old ++ map (row_of table.now) (map lent view.now)) }
{
    for (row, cells) in view {
        push_row(alloc, table, *row, cells, rows)?;
    }
    Ok(())
}

fn push_row(
    alloc: Global,
    table: &TableName,
    row: RowNo,
    cells: &[Cell],
    rows: &mut List<KeptRow>,
) -> Result<(), Memory>
    ensures { OnOk result (rows.new ≡ rows.old ++ (table.now, row, cells.now) ∷ []) }
{
    let copy = copy_cells(alloc, cells)?;
    let name = table.clone()?;
    rows.push((name, row, copy))
}
