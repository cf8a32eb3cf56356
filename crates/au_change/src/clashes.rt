//! Keys that two rows would have.
ghost use Rattle.std.specs.Prelude.{◌≡◌, ◌≢◌, ◌==◌, ◌||◌, ◌↔◌, ◌++◌, [], IfOk, IfSome, IsTrue, MatchOption, OnOk, false, map};
ghost use Rattle.std.specs.BTreeSet.{contains};
ghost use Rattle.std.specs.List.{AllByRecursion, Contains};
ghost use Rattle.std.specs.Ordering.{nat_cmp};
ghost use Rattle.au_base.specs.declared.numbers.RowNo.{RowNo as Number};
ghost use Rattle.au_change.specs.Inside as spec;
ghost use Rattle.au_change.specs.Inside.{IsKeyedTable, IsSomeStood, IsStanding, IsStood, all_parts, key_parts};
ghost use Rattle.au_txn.specs.Desks.{key_of, open_of};
ghost use Rattle.au_txn.specs.Keys.{AreDoubled, KeysDiffer};
ghost use Rattle.au_txn.specs.Transactions.{laid_over, rows_differ};
ghost use Rattle.au_txn.specs.declared.change.RowChange.{RowChange as Change};

use crate::keys::{Part, new_key, parts_of};
use crate::repeats::are_distinct;
use au_base::{Cell, ClientNo, Memory, RowNo, TableName, same_is_equal};
use au_txn::{Desk, RowChange, clashes_are_told_before};
use std::alloc::Global;
use std::collections::BTreeSet;

/// A table that has a key, as its client sees it: the places of the key's columns, and the numbers of
/// the rows that are changed.
#[derive(Clone, Copy)]
pub struct Keyed<'q> {
    pub desk: &'q Desk,
    pub client: ClientNo,
    pub table: &'q TableName,
    pub places: &'q [u32],
    pub numbers: &'q BTreeSet<u32>,
}

/// Whether two rows of the table have one key once the client has made the changes, which are of
/// different rows of it. The table has a key, whose columns stand at these places. It goes over the
/// changes alone, whose keys it puts in an order.
pub fn are_two_under_one(
    alloc: Global,
    desk: &Desk,
    client: ClientNo,
    table: &TableName,
    places: &[u32],
    changes: &[RowChange],
) -> Result<bool, Memory>
    requires key { key_of table.now desk.now.tables ≡ places.now }
    requires keyed { places.now ≢ [] }
    requires seen { KeysDiffer places.now table.now (laid_over desk.now.rows (open_of desk.now client)) }
    requires of_table { AllByRecursion (λ change. change.table ≡ table.now) changes.now }
    requires differ { IsTrue (rows_differ changes.now) }
    ensures { IfOk result (λ two. IsTrue two ↔ AreDoubled places.now table.now (laid_over (laid_over desk.now.rows (open_of desk.now client)) changes.now)) }
{
    same_is_equal();
    clashes_are_told_before();
    let numbers = numbers_of(alloc, changes)?;
    let keyed = Keyed {
        desk,
        client,
        table,
        places,
        numbers: &numbers,
    };
    match keys_alone(alloc, &keyed, changes)? {
        Some(keys) => {
            let distinct = are_distinct(alloc, keys.as_slice())?;
            Ok(!distinct)
        }
        None => Ok(true),
    }
}

// The numbers of the changed rows.
fn numbers_of(alloc: Global, changes: &[RowChange]) -> Result<BTreeSet<u32>, Memory>
    ensures { IfOk result (λ numbers. (row : Number) → contains nat_cmp numbers row.0 ≡ spec.has_number row changes.now) }
{
    let mut numbers = BTreeSet::new(alloc);
    for change in changes {
        add(&mut numbers, change.row)?;
    }
    Ok(numbers)
}

fn add(numbers: &mut BTreeSet<u32>, row: RowNo) -> Result<(), Memory>
    ensures { OnOk result ((other : Number) → contains nat_cmp numbers.new other.0 ≡ ((row.0 == other.0) || contains nat_cmp numbers.old other.0)) }
{
    numbers.insert(row.0)?;
    Ok(())
}

// The keys that the changes make, where none of them is the key of a row that stays as it is.
fn keys_alone(
    alloc: Global,
    keyed: &Keyed<'_>,
    changes: &[RowChange],
) -> Result<Option<Vec<Vec<Part>>>, Memory>
    requires { IsKeyedTable keyed.now }
    ensures stood { IfOk result (λ found. MatchOption found (IsSomeStood keyed.now changes.now) (λ keys. (change : Change) → Contains changes.now change → ¬ IsStood keyed.now change)) }
    ensures keys { IfOk result (λ found. IfSome found (λ keys. map (λ key. key.items) keys.items ≡ all_parts keyed.now.places.now changes.now)) }
{
    let mut keys = Vec::new(alloc);
    for change in changes {
        if add_key(alloc, keyed, change, &mut keys)? {
            return Ok(None);
        }
    }
    Ok(Some(keys))
}

// Adds the key that the change makes, unless it is that of a row that stays as it is.
fn add_key(
    alloc: Global,
    keyed: &Keyed<'_>,
    change: &RowChange,
    keys: &mut Vec<Vec<Part>>,
) -> Result<bool, Memory>
    requires { IsKeyedTable keyed.now }
    ensures stood { IfOk result (λ stands. IsTrue stands ↔ IsStood keyed.now change.now) }
    ensures keys { IfOk result (λ stands. stands ≡ false → map (λ key. key.items) keys.new.items ≡ map (λ key. key.items) keys.old.items ++ key_parts (spec.new_key keyed.now.places.now change.now)) }
{
    match new_key(alloc, keyed.places, change)? {
        Some(key) => {
            if stands_elsewhere(keyed, key.as_slice(), change.row) {
                return Ok(true);
            }
            keys.push(parts_of(alloc, key.as_slice())?)?;
            Ok(false)
        }
        None => Ok(false),
    }
}

// Whether a row that stays as it is has the key, other than this one.
fn stands_elsewhere(keyed: &Keyed<'_>, key: &[Cell], row: RowNo) -> bool
    requires { IsKeyedTable keyed.now }
    ensures { IsTrue result ↔ IsStanding keyed.now row key.now }
{
    match keyed.desk.under_other(keyed.client, keyed.table, key, row) {
        Some(other) => !keyed.numbers.contains(&other.0),
        None => false,
    }
}
