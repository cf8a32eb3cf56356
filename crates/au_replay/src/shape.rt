//! Columns and keys of new tables.
ghost use Rattle.std.specs.Prelude.{◌≡◌, ◌↔◌, ◌<◌, ◌≢◌, ℕ, [], IsTrue, get_or, length, map};
ghost use Rattle.std.specs.List.{AllByRecursion};
ghost use Rattle.au_entries.specs.Replaying.{IsKeyPlace, IsSizeOf, IsTable, NamesDiffer, NumbersDiffer};

use au_base::{Column, ColumnKind};

/// Whether these are the columns and the key of a table: there is a column, the names of columns
/// differ, each size is in its kind's range, the key's places differ, and each is that of a column
/// that is NOT NULL.
pub fn is_table(columns: &[Column], key: &[u32]) -> bool
    ensures { IsTrue result ↔ IsTable columns.now key.now }
{
    !columns.is_empty()
        && names_differ(columns)
        && are_sized(columns)
        && places_differ(key)
        && are_key_places(columns, key)
}

fn names_differ(columns: &[Column]) -> bool
    ensures { IsTrue result ↔ NamesDiffer (map (λ column. column.name) columns.now) }
{
    for at in 0..columns.len() {
        if is_named_before(columns, at) {
            return false;
        }
    }
    true
}

// Whether a column before the one at the place has its name.
fn is_named_before(columns: &[Column], at: usize) -> bool
    requires within { at < length columns.now }
    ensures { IsTrue result ↔ ((i : ℕ) × (i < at) × (get_or (map (λ column. column.name) columns.now) i [] ≡ get_or (map (λ column. column.name) columns.now) at [])) }
{
    for i in 0..at {
        if columns[i].name == columns[at].name {
            return true;
        }
    }
    false
}

fn are_sized(columns: &[Column]) -> bool
    ensures { IsTrue result ↔ AllByRecursion (λ column. IsSizeOf column.kind column.size) columns.now }
{
    for column in columns {
        if !is_size_of(column.kind, column.size) {
            return false;
        }
    }
    true
}

fn is_size_of(kind: ColumnKind, size: u16) -> bool
    ensures { IsTrue result ↔ IsSizeOf kind size }
{
    match kind {
        ColumnKind::Number => 1 <= size && size <= 18,
        ColumnKind::Text => 1 <= size && size <= 4000,
        ColumnKind::Moment => size == 6,
    }
}

fn places_differ(key: &[u32]) -> bool
    ensures { IsTrue result ↔ NumbersDiffer key.now }
{
    for at in 0..key.len() {
        if is_placed_before(key, at) {
            return false;
        }
    }
    true
}

// Whether the number at the place stands before it too.
fn is_placed_before(key: &[u32], at: usize) -> bool
    requires within { at < length key.now }
    ensures { IsTrue result ↔ ((i : ℕ) × (i < at) × (get_or key.now i 0 ≡ get_or key.now at 0)) }
{
    for i in 0..at {
        if key[i] == key[at] {
            return true;
        }
    }
    false
}

fn are_key_places(columns: &[Column], key: &[u32]) -> bool
    ensures { IsTrue result ↔ AllByRecursion (IsKeyPlace columns.now) key.now }
{
    for place in key {
        if !is_key_place(columns, *place) {
            return false;
        }
    }
    true
}

fn is_key_place(columns: &[Column], place: u32) -> bool
    ensures { IsTrue result ↔ IsKeyPlace columns.now place }
{
    let place = place as usize;
    place < columns.len() && columns[place].not_null
}
