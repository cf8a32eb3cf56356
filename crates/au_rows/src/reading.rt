//! What a client sees.
ghost use Rattle.std.specs.Prelude.{◌≡◌, ◌≢◌, ◌++◌, [], IfNone, IfOk, IfSome, List, OnOk, Some, true, map};
ghost use Rattle.std.specs.List.{Contains, list_all};
ghost use Rattle.au_base.specs.declared.cell.Cell.{Cell as Content};
ghost use Rattle.au_base.specs.declared.numbers.RowNo.{RowNo as Number};
ghost use Rattle.std.specs.Option.{option_copied, option_map};
ghost use Rattle.au_rows.specs.Held.{HasKey, IsOtherIn, entry, lent, next_of, seen_by, shown_after, view_of};
ghost use Rattle.au_rows.specs.Kept.{found_seen, held_of, is_whole, place_in};
ghost use Rattle.au_rows.specs.Order.{in_order};
ghost use Rattle.au_rows.specs.Sought.{IsIndexedBy};

use crate::keys::{Asked, has_key};
use crate::place::Place;
use crate::places::Places;
use crate::sought::Sought;
use crate::versions::Versions;
use au_base::{Cell, ClientNo, List, Memory, RowNo};
use std::alloc::Global;

/// What the client sees of a row.
fn content<'a>(place: &Place, versions: &'a Versions, by: ClientNo) -> Option<&'a List<Cell>>
    ensures { option_copied result ≡ seen_by by (held_of versions.entry.now.slots place.now) }
{
    let slot = if place.is_by(by) {
        place.newest
    } else {
        place.settled
    };
    match slot {
        Some(slot) => match versions.get(slot) {
            Some(version) => Some(&version.cells),
            None => None,
        },
        None => None,
    }
}

/// The place's row, where it stands after the number and the client sees it.
fn row_after<'a>(
    place: &Place,
    versions: &'a Versions,
    after: RowNo,
    by: ClientNo,
) -> Option<(RowNo, &'a [Cell])>
    ensures { option_map lent result ≡ shown_after place.now.table after by (held_of versions.entry.now.slots place.now) }
{
    if place.number.0 <= after.0 {
        return None;
    }
    match content(place, versions, by) {
        Some(cells) => Some((place.number, cells.as_slice())),
        None => None,
    }
}

/// The first row of the table over `after` that the client sees.
pub(crate) fn next_in<'a>(
    places: &Places,
    versions: &'a Versions,
    table: usize,
    after: RowNo,
    by: ClientNo,
) -> Option<(RowNo, &'a [Cell])>
    requires { in_order places.now.listed ≡ true }
    ensures { option_map lent result ≡ next_of table after by (map (held_of versions.entry.now.slots) places.now.listed) }
{
    let mut walk = places.from(table, after);
    while let Some(place) = walk.step() {
        if place.table as usize != table {
            return None;
        }
        if let Some(row) = row_after(&place, versions, after, by) {
            return Some(row);
        }
    }
    None
}

/// Adds the place's row to others, where the client sees it.
fn add_seen<'a>(
    rows: &mut Vec<(RowNo, &'a [Cell])>,
    place: &Place,
    versions: &'a Versions,
    by: ClientNo,
) -> Result<(), Memory>
    ensures { OnOk result (map lent rows.new.items ≡ map lent rows.old.items ++ entry place.now.number (seen_by by (held_of versions.entry.now.slots place.now))) }
{
    if let Some(cells) = content(place, versions, by) {
        rows.push((place.number, cells.as_slice()))?;
    }
    Ok(())
}

/// The rows of the table that the client sees, by their numbers.
pub(crate) fn view_in<'a>(
    alloc: Global,
    places: &Places,
    versions: &'a Versions,
    table: usize,
    by: ClientNo,
) -> Result<Vec<(RowNo, &'a [Cell])>, Memory>
    requires { in_order places.now.listed ≡ true }
    ensures { IfOk result (λ rows. map lent rows.items ≡ view_of table by (map (held_of versions.entry.now.slots) places.now.listed)) }
{
    let mut rows = Vec::new(alloc);
    let mut walk = places.from(table, RowNo(0));
    while let Some(place) = walk.step() {
        if place.table as usize != table {
            return Ok(rows);
        }
        add_seen(&mut rows, &place, versions, by)?;
    }
    Ok(rows)
}

/// Whether the client sees the row.
pub(crate) fn is_seen_in(places: &Places, table: usize, number: RowNo, by: ClientNo) -> bool
    requires { in_order places.now.listed ≡ true }
    ensures { result ≡ found_seen by (place_in table number places.now.listed) }
{
    match places.find(table, number) {
        Some(place) => {
            if place.is_by(by) {
                place.newest.is_some()
            } else {
                place.settled.is_some()
            }
        }
        None => false,
    }
}

/// The row of the place, where the client who asks sees it and it has the key.
fn row_if_under<'a>(
    place: &Place,
    versions: &'a Versions,
    asked: &Asked<'_>,
) -> Option<(RowNo, &'a [Cell])>
    ensures some { IfSome result (λ row. (row.0 ≡ place.now.number) × (seen_by asked.now.by (held_of versions.entry.now.slots place.now) ≡ Some row.1.now) × HasKey asked.now.places.now asked.now.key.now (Some row.1.now)) }
    ensures none { IfNone result (HasKey asked.now.places.now asked.now.key.now (seen_by asked.now.by (held_of versions.entry.now.slots place.now)) → ⊥) }
{
    match content(place, versions, asked.by) {
        Some(cells) => {
            if has_key(asked.places, asked.key, cells.as_slice()) {
                Some((place.number, cells.as_slice()))
            } else {
                None
            }
        }
        None => None,
    }
}

/// A row of the table that the client sees and that has the key, by a walk over its rows.
fn under_walk<'a>(
    places: &Places,
    versions: &'a Versions,
    asked: &Asked<'_>,
) -> Option<(RowNo, &'a [Cell])>
    requires { in_order places.now.listed ≡ true }
    ensures some { IfSome result (λ row. Contains (view_of asked.now.table asked.now.by (map (held_of versions.entry.now.slots) places.now.listed)) (lent row) × HasKey asked.now.places.now asked.now.key.now (Some row.1.now)) }
    ensures none { IfNone result ((row : Number × List Content) → Contains (view_of asked.now.table asked.now.by (map (held_of versions.entry.now.slots) places.now.listed)) row → HasKey asked.now.places.now asked.now.key.now (Some row.1) → ⊥) }
{
    let mut walk = places.from(asked.table, RowNo(0));
    while let Some(place) = walk.step() {
        if place.table as usize != asked.table {
            return None;
        }
        if let Some(row) = row_if_under(&place, versions, asked) {
            return Some(row);
        }
    }
    None
}

/// A row of the table that the client sees and that has the key, by the index of keys.
fn under_index<'a>(
    places: &Places,
    versions: &'a Versions,
    asked: &Asked<'_>,
) -> Option<(RowNo, &'a [Cell])>
    requires order { in_order places.now.listed ≡ true }
    requires whole { list_all (is_whole versions.now.slots) places.now.listed ≡ true }
    requires indexed { IsIndexedBy asked.now.table asked.now.places.now versions.now.slots }
    requires keyed { asked.now.places.now ≢ [] }
    ensures some { IfSome result (λ row. Contains (view_of asked.now.table asked.now.by (map (held_of versions.entry.now.slots) places.now.listed)) (lent row) × HasKey asked.now.places.now asked.now.key.now (Some row.1.now)) }
    ensures none { IfNone result ((row : Number × List Content) → Contains (view_of asked.now.table asked.now.by (map (held_of versions.entry.now.slots) places.now.listed)) row → HasKey asked.now.places.now asked.now.key.now (Some row.1) → ⊥) }
{
    match versions.find(places, asked, Sought::Seen) {
        Some(slot) => match versions.get(slot) {
            Some(version) => Some((version.number, version.cells.as_slice())),
            None => None,
        },
        None => None,
    }
}

/// A row of the table that the client sees and that has the key. The index knows no rows of a table
/// without a key.
pub(crate) fn under_in<'a>(
    places: &Places,
    versions: &'a Versions,
    asked: &Asked<'_>,
) -> Option<(RowNo, &'a [Cell])>
    requires order { in_order places.now.listed ≡ true }
    requires whole { list_all (is_whole versions.now.slots) places.now.listed ≡ true }
    requires indexed { IsIndexedBy asked.now.table asked.now.places.now versions.now.slots }
    ensures some { IfSome result (λ row. Contains (view_of asked.now.table asked.now.by (map (held_of versions.entry.now.slots) places.now.listed)) (lent row) × HasKey asked.now.places.now asked.now.key.now (Some row.1.now)) }
    ensures none { IfNone result ((row : Number × List Content) → Contains (view_of asked.now.table asked.now.by (map (held_of versions.entry.now.slots) places.now.listed)) row → HasKey asked.now.places.now asked.now.key.now (Some row.1) → ⊥) }
{
    if asked.places.is_empty() {
        under_walk(places, versions, asked)
    } else {
        under_index(places, versions, asked)
    }
}

/// The number of the place's row, where it isn't the given row, the client who asks sees it and it
/// has the key.
fn other_if_under(
    place: &Place,
    versions: &Versions,
    asked: &Asked<'_>,
    row: RowNo,
) -> Option<RowNo>
    ensures some { IfSome result (λ other. (other ≡ place.now.number) × (other ≢ row) × (cells : List Content) × (seen_by asked.now.by (held_of versions.now.slots place.now) ≡ Some cells) × HasKey asked.now.places.now asked.now.key.now (Some cells)) }
    ensures none { IfNone result (place.now.number ≢ row → HasKey asked.now.places.now asked.now.key.now (seen_by asked.now.by (held_of versions.now.slots place.now)) → ⊥) }
{
    if place.number.0 == row.0 {
        return None;
    }
    match row_if_under(place, versions, asked) {
        Some(found) => Some(found.0),
        None => None,
    }
}

/// Another row of the table that the client sees and that has the key, by a walk over its rows.
fn other_walk(places: &Places, versions: &Versions, asked: &Asked<'_>, row: RowNo) -> Option<RowNo>
    requires { in_order places.now.listed ≡ true }
    ensures some { IfSome result (λ other. IsOtherIn (view_of asked.now.table asked.now.by (map (held_of versions.now.slots) places.now.listed)) asked.now.places.now asked.now.key.now row other) }
    ensures none { IfNone result ((other : Number) → IsOtherIn (view_of asked.now.table asked.now.by (map (held_of versions.now.slots) places.now.listed)) asked.now.places.now asked.now.key.now row other → ⊥) }
{
    let mut walk = places.from(asked.table, RowNo(0));
    while let Some(place) = walk.step() {
        if place.table as usize != asked.table {
            return None;
        }
        if let Some(other) = other_if_under(&place, versions, asked, row) {
            return Some(other);
        }
    }
    None
}

/// Another row of the table that the client sees and that has the key, by the index of keys.
fn other_index(places: &Places, versions: &Versions, asked: &Asked<'_>, row: RowNo) -> Option<RowNo>
    requires order { in_order places.now.listed ≡ true }
    requires whole { list_all (is_whole versions.now.slots) places.now.listed ≡ true }
    requires indexed { IsIndexedBy asked.now.table asked.now.places.now versions.now.slots }
    requires keyed { asked.now.places.now ≢ [] }
    ensures some { IfSome result (λ other. IsOtherIn (view_of asked.now.table asked.now.by (map (held_of versions.now.slots) places.now.listed)) asked.now.places.now asked.now.key.now row other) }
    ensures none { IfNone result ((other : Number) → IsOtherIn (view_of asked.now.table asked.now.by (map (held_of versions.now.slots) places.now.listed)) asked.now.places.now asked.now.key.now row other → ⊥) }
{
    match versions.find(places, asked, Sought::Other(row)) {
        Some(slot) => match versions.get(slot) {
            Some(version) => Some(version.number),
            None => None,
        },
        None => None,
    }
}

/// Another row of the table than the given one that the client sees and that has the key. The index
/// knows no rows of a table without a key.
pub(crate) fn other_in(
    places: &Places,
    versions: &Versions,
    asked: &Asked<'_>,
    row: RowNo,
) -> Option<RowNo>
    requires order { in_order places.now.listed ≡ true }
    requires whole { list_all (is_whole versions.now.slots) places.now.listed ≡ true }
    requires indexed { IsIndexedBy asked.now.table asked.now.places.now versions.now.slots }
    ensures some { IfSome result (λ other. IsOtherIn (view_of asked.now.table asked.now.by (map (held_of versions.now.slots) places.now.listed)) asked.now.places.now asked.now.key.now row other) }
    ensures none { IfNone result ((other : Number) → IsOtherIn (view_of asked.now.table asked.now.by (map (held_of versions.now.slots) places.now.listed)) asked.now.places.now asked.now.key.now row other → ⊥) }
{
    if asked.places.is_empty() {
        other_walk(places, versions, asked, row)
    } else {
        other_index(places, versions, asked, row)
    }
}
