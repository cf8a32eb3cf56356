//! Keys of rows.
ghost use Rattle.std.specs.Prelude.{◌≡◌, ◌≢◌, ◌↔◌, [], ◌∷◌, IsTrue, Some, map, slice_get, true};
ghost use Rattle.std.specs.List.{list_all};
ghost use Rattle.std.specs.Option.{option_copied};
ghost use Rattle.au_rows.specs.Held.{HasKey, IsLocking, SomeLocks, settled_of};
ghost use Rattle.au_rows.specs.Kept.{Sound, change_of, content_at, held_of};
ghost use Rattle.au_rows.specs.Links.{entry_elsewhere, live};
ghost use Rattle.au_rows.specs.Order.{in_order};
ghost use Rattle.au_rows.specs.Sought.{IsIndexedBy};

use crate::entry::Entry;
use crate::places::Places;
use crate::sought::Sought;
use crate::unsettled::Unsettled;
use crate::versions::Versions;
use au_base::{Cell, ClientNo, List};

/// A key of a table for which a client asks.
#[derive(Drop)]
pub struct Asked<'a> {
    /// The table's number.
    pub table: usize,
    /// The places of the table's key columns.
    pub places: &'a [u32],
    /// The key's cells, in the order of the places.
    pub key: &'a [Cell],
    pub by: ClientNo,
}

fn is_same(a: &Cell, b: &Cell) -> bool
    ensures { IsTrue result ↔ (a.now ≡ b.now) }
{
    *a == *b
}

fn is_cell(cells: &[Cell], place: usize, cell: &Cell) -> bool
    ensures { IsTrue result ↔ (slice_get cells.now place ≡ Some cell.now) }
{
    match cells.get(place) {
        Some(found) => is_same(found, cell),
        None => false,
    }
}

/// Whether the cells at the places are those of the key.
pub(crate) fn has_key(places: &[u32], key: &[Cell], cells: &[Cell]) -> bool
    ensures { IsTrue result ↔ HasKey places.now key.now (Some cells.now) }
{
    if places.len() != key.len() {
        return false;
    }
    for at in 0..places.len() {
        if !is_cell(cells, places[at] as usize, &key[at]) {
            return false;
        }
    }
    true
}

/// The content in a slot.
fn content<'a>(versions: &'a Versions, slot: Option<u32>) -> Option<&'a List<Cell>>
    ensures { option_copied result ≡ content_at versions.entry.now.slots slot }
{
    match slot {
        Some(slot) => match versions.get(slot) {
            Some(version) => Some(&version.cells),
            None => None,
        },
        None => None,
    }
}

fn has_key_in(versions: &Versions, slot: Option<u32>, places: &[u32], key: &[Cell]) -> bool
    ensures { IsTrue result ↔ HasKey places.now key.now (content_at versions.now.slots slot) }
{
    match content(versions, slot) {
        Some(cells) => has_key(places, key, cells.as_slice()),
        None => false,
    }
}

/// Whether the committed content of the change's row has the key.
fn has_committed_key(
    places: &Places,
    versions: &Versions,
    change: &Unsettled,
    asked: &Asked<'_>,
) -> bool
    requires { in_order places.now.listed ≡ true }
    ensures { IsTrue result ↔ HasKey asked.now.places.now asked.now.key.now (settled_of change.now.table change.now.number (map (held_of versions.now.slots) places.now.listed)) }
{
    let slot = places.settled(change.table as usize, change.number);
    has_key_in(versions, slot, asked.places, asked.key)
}

fn is_locking(places: &Places, versions: &Versions, change: &Unsettled, asked: &Asked<'_>) -> bool
    requires { in_order places.now.listed ≡ true }
    ensures { IsTrue result ↔ IsLocking asked.now.places.now (map (held_of versions.now.slots) places.now.listed) asked.now.table asked.now.key.now asked.now.by (change_of versions.now.slots change.now) }
{
    if change.by.0 == asked.by.0 {
        return false;
    }
    if change.table as usize != asked.table {
        return false;
    }
    if has_key_in(versions, change.slot, asked.places, asked.key) {
        return true;
    }
    has_committed_key(places, versions, change, asked)
}

fn is_locking_entry(
    places: &Places,
    versions: &Versions,
    entry: &Option<Entry>,
    asked: &Asked<'_>,
) -> bool
    requires { in_order places.now.listed ≡ true }
    ensures { IsTrue result ↔ SomeLocks asked.now.places.now (map (held_of versions.now.slots) places.now.listed) asked.now.table asked.now.key.now asked.now.by (map (change_of versions.now.slots) (live (entry.now ∷ []))) }
{
    match entry {
        Some(entry) => is_locking(places, versions, &entry.change, asked),
        None => false,
    }
}

/// Whether an unsettled change of another client has the key as its old or new key, by a walk over
/// the changes.
fn locked_walk(
    places: &Places,
    versions: &Versions,
    entries: &[Option<Entry>],
    asked: &Asked<'_>,
) -> bool
    requires { in_order places.now.listed ≡ true }
    ensures { IsTrue result ↔ SomeLocks asked.now.places.now (map (held_of versions.now.slots) places.now.listed) asked.now.table asked.now.key.now asked.now.by (map (change_of versions.now.slots) (live entries.now)) }
{
    for entry in entries {
        if is_locking_entry(places, versions, entry, asked) {
            return true;
        }
    }
    false
}

/// Whether an unsettled change of another client has the key as its old or new key, by the index of
/// keys.
fn locked_index(
    places: &Places,
    versions: &Versions,
    entries: &[Option<Entry>],
    asked: &Asked<'_>,
) -> bool
    requires sound { Sound places.now.listed versions.now.slots (live entries.now) }
    requires indexed { IsIndexedBy asked.now.table asked.now.places.now versions.now.slots }
    requires keyed { asked.now.places.now ≢ [] }
    ensures { IsTrue result ↔ SomeLocks asked.now.places.now (map (held_of versions.now.slots) places.now.listed) asked.now.table asked.now.key.now asked.now.by (map (change_of versions.now.slots) (live entries.now)) }
{
    versions.find(places, asked, Sought::Locked).is_some()
}

/// Whether an unsettled change of another client has the key as its old or new key. The index knows
/// no rows of a table without a key.
pub(crate) fn is_locked(
    places: &Places,
    versions: &Versions,
    entries: &[Option<Entry>],
    asked: &Asked<'_>,
) -> bool
    requires sound { Sound places.now.listed versions.now.slots (live entries.now) }
    requires indexed { IsIndexedBy asked.now.table asked.now.places.now versions.now.slots }
    ensures { IsTrue result ↔ SomeLocks asked.now.places.now (map (held_of versions.now.slots) places.now.listed) asked.now.table asked.now.key.now asked.now.by (map (change_of versions.now.slots) (live entries.now)) }
{
    if asked.places.is_empty() {
        locked_walk(places, versions, entries, asked)
    } else {
        locked_index(places, versions, entries, asked)
    }
}

fn is_elsewhere(entry: &Option<Entry>, table: usize) -> bool
    ensures { result ≡ entry_elsewhere table entry.now }
{
    match entry {
        Some(entry) => entry.change.table as usize != table,
        None => true,
    }
}

/// Whether all changes are of rows of other tables.
pub(crate) fn is_settled_in(entries: &[Option<Entry>], table: usize) -> bool
    ensures { result ≡ list_all (entry_elsewhere table) entries.now }
{
    entries.iter().all(|entry| is_elsewhere(entry, table))
}
