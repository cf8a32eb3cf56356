//! The keys of a table's rows, and whether a new one may come.
ghost use Rattle.std.specs.Prelude.{◌≡◌, ◌↔◌, IfOk, IsTrue, List, MatchOption, None, Some};
ghost use Rattle.std.specs.List.{AllByRecursion, slice_get};
ghost use Rattle.au_base.specs.declared.cell.Cell.{Cell as Content};
ghost use Rattle.au_modify.specs.Keys as spec;
ghost use Rattle.au_modify.specs.Keys.{IsLockedKey, IsPresentKey};
ghost use Rattle.au_rows.specs.Held.{HasKey};
ghost use Rattle.au_world.specs.Sights.{sight_of};
ghost use Rattle.au_world.specs.Sound.{IsOpenTable};

use crate::columns::table_named;
use au_base::{Cell, ClientNo, Memory, TableName, same_is_equal};
use au_entries::Table;
use au_txn::contents_have_one_key;
use au_world::World;
use std::alloc::Global;

/// The places of the columns of the table's key, none where it has none or isn't there. It takes no
/// memory.
pub fn key_in<'a>(tables: &'a [Table], name: &TableName) -> &'a [u32]
    ensures { result.now ≡ spec.key_in tables.now name.now }
{
    match table_named(tables, name) {
        Some(table) => table.key.as_slice(),
        None => &[],
    }
}

/// Whether the table has a key, and another client has a change with the key of these cells, as its
/// old or its new one.
pub fn is_locked_key(
    alloc: Global,
    world: &World<'_>,
    client: ClientNo,
    table: &TableName,
    cells: &[Cell],
) -> Result<bool, Memory>
    requires tables { AllByRecursion (IsOpenTable world.now.desk.now) world.now.catalog.now.tables }
    ensures { IfOk result (λ locked. IsTrue locked ↔ IsLockedKey (sight_of world.now client) client table.now cells.now) }
{
    let places = key_in(world.catalog.tables.as_slice(), table);
    is_locked_at(alloc, world, client, table, places, cells)
}

/// As `is_locked_key`, by the places of the key's columns.
pub fn is_locked_at(
    alloc: Global,
    world: &World<'_>,
    client: ClientNo,
    table: &TableName,
    places: &[u32],
    cells: &[Cell],
) -> Result<bool, Memory>
    requires tables { AllByRecursion (IsOpenTable world.now.desk.now) world.now.catalog.now.tables }
    requires places { places.now ≡ spec.key_in world.now.catalog.now.tables table.now }
    ensures { IfOk result (λ locked. IsTrue locked ↔ IsLockedKey (sight_of world.now client) client table.now cells.now) }
{
    if places.is_empty() {
        return Ok(false);
    }
    same_is_equal();
    contents_have_one_key();
    match key_at(alloc, cells, places)? {
        Some(key) => Ok(world.desk.locked_key(client, table, key.as_slice())),
        None => Ok(false),
    }
}

/// Whether the table has a key, and a row that the client sees has the key of these cells.
pub fn is_present_key(
    alloc: Global,
    world: &World<'_>,
    client: ClientNo,
    table: &TableName,
    cells: &[Cell],
) -> Result<bool, Memory>
    requires tables { AllByRecursion (IsOpenTable world.now.desk.now) world.now.catalog.now.tables }
    ensures { IfOk result (λ present. IsTrue present ↔ IsPresentKey (sight_of world.now client) table.now cells.now) }
{
    let places = key_in(world.catalog.tables.as_slice(), table);
    is_present_at(alloc, world, client, table, places, cells)
}

/// As `is_present_key`, by the places of the key's columns.
pub fn is_present_at(
    alloc: Global,
    world: &World<'_>,
    client: ClientNo,
    table: &TableName,
    places: &[u32],
    cells: &[Cell],
) -> Result<bool, Memory>
    requires tables { AllByRecursion (IsOpenTable world.now.desk.now) world.now.catalog.now.tables }
    requires places { places.now ≡ spec.key_in world.now.catalog.now.tables table.now }
    ensures { IfOk result (λ present. IsTrue present ↔ IsPresentKey (sight_of world.now client) table.now cells.now) }
{
    if places.is_empty() {
        return Ok(false);
    }
    same_is_equal();
    contents_have_one_key();
    match key_at(alloc, cells, places)? {
        Some(key) => Ok(world.desk.under(client, table, key.as_slice()).is_some()),
        None => Ok(false),
    }
}

// The cells at these places. `None` exactly where one of them has none.
fn key_at(alloc: Global, cells: &[Cell], places: &[u32]) -> Result<Option<Vec<Cell>>, Memory>
    ensures { IfOk result (λ found. MatchOption found ((key : List Content) → ¬ HasKey places.now key (Some cells.now)) (λ key. HasKey places.now key.items (Some cells.now))) }
{
    let mut key = Vec::new(alloc);
    for place in places {
        match cell_at(cells, *place as usize)? {
            Some(cell) => key.push(cell)?,
            None => return Ok(None),
        }
    }
    Ok(Some(key))
}

fn cell_at(cells: &[Cell], place: usize) -> Result<Option<Cell>, Memory>
    ensures { IfOk result (λ found. MatchOption found (slice_get cells.now place ≡ None) (λ cell. slice_get cells.now place ≡ Some cell)) }
{
    match cells.get(place) {
        Some(cell) => Ok(Some(cell.clone()?)),
        None => Ok(None),
    }
}
