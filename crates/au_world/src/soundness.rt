//! Whether what a client sees is sound.
ghost use Rattle.std.specs.Prelude.{◌≡◌, ◌≤◌, IfOk, IfSome, IsTrue, Some, map};
ghost use Rattle.std.specs.List.{AllByRecursion, slice_get};
ghost use Rattle.au_base.specs.Limits as limits;
ghost use Rattle.au_query.specs.Combos.{lines};
ghost use Rattle.au_rows.specs.Held.{HasKey};
ghost use Rattle.au_txn.specs.Desks.{contents_of, key_of, open_of};
ghost use Rattle.au_txn.specs.Keys.{KeysDiffer};
ghost use Rattle.au_txn.specs.Transactions.{laid_over, view};
ghost use Rattle.au_world.specs.Inside.{IsAloneUnder};
ghost use Rattle.au_world.specs.Sound.{AreTablesInOrder, IsOpenTable, IsSeenSoundly, IsSoundFor, IsSoundRecord};
ghost use Rattle.au_base.specs.declared.numbers.RowNo.{RowNo as Number};
ghost use Rattle.au_txn.specs.Transactions.{IsUnderOther};

use crate::World;
use au_base::{Cell, ClientNo, Memory, RowNo, TableName};
use au_entries::{Record, Table};
use au_query::{Source, are_sound};
use au_txn::{
    Desk, contents_have_one_key, keys_differ_by_points, rows_are_what_they_answer,
    rows_stand_by_tables,
};
use std::alloc::Global;
use std::slice;

/// Whether a client's query may be asked over the world, whose tables stand in order and are open
/// with their keys: whether the client sees each of them soundly, and the records are sound. It goes
/// over all rows that the client sees.
pub fn is_sound_for(alloc: Global, world: &World<'_>, client: ClientNo) -> Result<bool, Memory>
    requires order { AreTablesInOrder world.now.catalog.now.tables }
    requires tables { AllByRecursion (IsOpenTable world.now.desk.now) world.now.catalog.now.tables }
    ensures { IfOk result (λ sound. IsTrue sound → IsSoundFor world.now client) }
{
    if !are_sound_records(world.records) {
        return Ok(false);
    }
    let sound = are_seen_soundly(alloc, world.desk, client, world.catalog.tables.as_slice())?;
    Ok(sound)
}

fn are_sound_records(records: &[Record]) -> bool
    ensures { IsTrue result → AllByRecursion IsSoundRecord records.now }
{
    for entry in records {
        if !is_sound_record(entry) {
            return false;
        }
    }
    true
}

fn is_sound_record(entry: &Record) -> bool
    ensures { IsTrue result → IsSoundRecord entry.now }
{
    entry.session.0 <= 999_999_999_999_999_999 && is_moment(entry.stamp.0)
}

fn is_moment(moment: u64) -> bool
    ensures { IsTrue result → moment ≤ limits.LAST_MOMENT }
{
    Cell::Moment(moment).is_sound()
}

fn are_seen_soundly(
    alloc: Global,
    desk: &Desk,
    client: ClientNo,
    tables: &[Table],
) -> Result<bool, Memory>
    requires tables { AllByRecursion (IsOpenTable desk.now) tables.now }
    ensures { IfOk result (λ sound. IsTrue sound → AllByRecursion (λ table. IsSeenSoundly desk.now client table.name) tables.now) }
{
    for table in tables {
        if !is_seen_soundly(alloc, desk, client, table)? {
            return Ok(false);
        }
    }
    Ok(true)
}

fn is_seen_soundly(
    alloc: Global,
    desk: &Desk,
    client: ClientNo,
    table: &Table,
) -> Result<bool, Memory>
    requires open { IsOpenTable desk.now table.now }
    ensures { IfOk result (λ sound. IsTrue sound → IsSeenSoundly desk.now client table.now.name) }
{
    let seen = desk.view(alloc, client, &table.name)?;
    let source = Source {
        table: table.name.clone()?,
        rows: seen.rows,
    };
    if !are_sound(slice::from_ref(&source)) {
        return Ok(false);
    }
    let differ = do_keys_differ(alloc, desk, client, table, source.rows.as_slice())?;
    Ok(differ)
}

// Whether no row of the table, whose rows these are, has another one under its key.
fn do_keys_differ(
    alloc: Global,
    desk: &Desk,
    client: ClientNo,
    table: &Table,
    rows: &[(RowNo, &[Cell])],
) -> Result<bool, Memory>
    requires key { key_of table.now.name desk.now.tables ≡ table.now.key }
    requires rows { lines rows.now ≡ map contents_of (view desk.now.rows (open_of desk.now client) table.now.name) }
    ensures { IfOk result (λ differ. IsTrue differ → KeysDiffer (key_of table.now.name desk.now.tables) table.now.name (laid_over desk.now.rows (open_of desk.now client))) }
{
    if table.key.is_empty() {
        return Ok(true);
    }
    keys_differ_by_points();
    rows_are_what_they_answer();
    rows_stand_by_tables();
    desk.holds_together();
    for (number, cells) in rows {
        if !is_alone_under(alloc, desk, client, table, *number, *cells)? {
            return Ok(false);
        }
    }
    Ok(true)
}

// Whether no other row of the table has the key of the one with these cells.
fn is_alone_under(
    alloc: Global,
    desk: &Desk,
    client: ClientNo,
    table: &Table,
    number: RowNo,
    cells: &[Cell],
) -> Result<bool, Memory>
    requires key { key_of table.now.name desk.now.tables ≡ table.now.key }
    ensures { IfOk result (λ alone. IsTrue alone → IsAloneUnder desk.now client table.now.name (number, cells.now)) }
{
    contents_have_one_key();
    match key_in(alloc, cells, table.key.as_slice())? {
        Some(key) => Ok(is_none_under(desk, client, &table.name, key.as_slice(), number)),
        None => Ok(false),
    }
}

fn is_none_under(
    desk: &Desk,
    client: ClientNo,
    table: &TableName,
    key: &[Cell],
    number: RowNo,
) -> bool
    ensures { IsTrue result → (other : Number) → ¬ IsUnderOther (key_of table.now desk.now.tables) key.now table.now (laid_over desk.now.rows (open_of desk.now client)) number other }
{
    match desk.under_other(client, table, key, number) {
        Some(_) => false,
        None => true,
    }
}

// The cells at these places.
fn key_in(alloc: Global, cells: &[Cell], places: &[u32]) -> Result<Option<Vec<Cell>>, Memory>
    ensures { IfOk result (λ found. IfSome found (λ key. HasKey places.now key.items (Some cells.now))) }
{
    let mut key = Vec::new(alloc);
    for place in places {
        match cell_at(cells, *place as usize)? {
            Some(cell) => key.push(cell)?,
            None => return Ok(None),
        }
    }
    Ok(Some(key))
}

fn cell_at(cells: &[Cell], place: usize) -> Result<Option<Cell>, Memory>
    ensures { IfOk result (λ found. IfSome found (λ cell. slice_get cells.now place ≡ Some cell)) }
{
    match cells.get(place) {
        Some(cell) => Ok(Some(cell.clone()?)),
        None => Ok(None),
    }
}
