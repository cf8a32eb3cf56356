//! The numbers under which versions are indexed.
ghost use Rattle.std.specs.Prelude.{◌≡◌};
ghost use Rattle.au_rows.specs.Hash.{cell_hash, hash_step, key_hash, name_hash, place_hash, stored_hash, text_hash, version_hash};

use au_base::{Cell, RowNo, TableName};

/// An odd number without a pattern, by which small numbers end far apart.
const FACTOR: u64 = 6_364_136_223_846_793_005;

/// The number of a list with one part more. Sums and products go round at 2^64.
fn hash_step(hash: u64, part: u64) -> u64
    ensures { result ≡ hash_step hash part }
{
    hash.wrapping_mul(FACTOR).wrapping_add(part)
}

/// The number of a text, from all of its bytes.
fn text_hash(bytes: &[u8]) -> u64
    ensures { result ≡ text_hash bytes.now }
{
    let mut hash = 1;
    for byte in bytes {
        hash = hash_step(hash, u64::from(*byte));
    }
    hash
}

/// The number of a table's name.
pub(crate) fn name_hash(table: &TableName) -> u64
    ensures { result ≡ name_hash table.now }
{
    hash_step(
        text_hash(table.owner.as_bytes()),
        text_hash(table.name.as_bytes()),
    )
}

/// The number of a cell. That of a negative number is the one without its sign.
fn cell_hash(cell: &Cell) -> u64
    ensures { result ≡ cell_hash cell.now }
{
    match cell {
        Cell::Null => 0,
        Cell::Num(number) => number.unsigned_abs(),
        Cell::Text(text) => text_hash(text.as_bytes()),
        Cell::Moment(moment) => *moment,
    }
}

/// The number of a key of a table.
pub(crate) fn key_hash(table: usize, key: &[Cell]) -> u64
    ensures { result ≡ key_hash table key.now }
{
    let mut hash = table as u64;
    for cell in key {
        hash = hash_step(hash, cell_hash(cell));
    }
    hash
}

/// The number of the cell at a place, 0 where there is none.
fn place_hash(cells: &[Cell], place: usize) -> u64
    ensures { result ≡ place_hash cells.now place }
{
    match cells.get(place) {
        Some(cell) => cell_hash(cell),
        None => 0,
    }
}

/// The number of the cells at the places of a table's key.
fn stored_hash(table: usize, places: &[u32], cells: &[Cell]) -> u64
    ensures { result ≡ stored_hash table places.now cells.now }
{
    let mut hash = table as u64;
    for place in places {
        hash = hash_step(hash, place_hash(cells, *place as usize));
    }
    hash
}

/// The number of a content of a row: that of its key, and in a table without a key that of the row.
pub(crate) fn version_hash(table: usize, number: RowNo, places: &[u32], cells: &[Cell]) -> u64
    ensures { result ≡ version_hash table number.0 places.now cells.now }
{
    if places.is_empty() {
        hash_step(table as u64, u64::from(number.0))
    } else {
        stored_hash(table, places, cells)
    }
}
