//! Buckets of places. A bucket lists the places of the enabled policies that name one key, each once,
//! and has room for more. One that has no place is only there until the next edit of buckets: it was
//! opened for an edit that is ready, or for one that was never made.
ghost use Rattle.std.specs.Prelude.{◌≡◌, ◌==◌, ◌||◌, ◌&&◌, ◌≤◌, ◌<◌, ◌^◌, ℕ, true, false, IfOk, OnOk, Some, is_some, length, nat_lt, not};
ghost use Rattle.std.specs.BTreeMap.{get};
ghost use Rattle.std.specs.BTreeSet.{contains};
ghost use Rattle.std.specs.List.{list_any};
ghost use Rattle.std.specs.Ordering.{is_eq, nat_cmp};
ghost use Rattle.au_pindex.specs.Buckets.{is_in_bucket};
ghost use Rattle.au_pindex.specs.descent.Rooms.{KeepPlaces, StillTake, ends_with, room_in, room_of, takes, takes_in};
ghost use Rattle.au_pindex.specs.Places.{passes};
ghost use Rattle.au_pindex.specs.descent.Settling.{NoneIsEmpty};
ghost use Rattle.au_pindex.specs.descent.Shifting.{came_from};

use crate::shift::{Shift, shift_bucket};
use au_base::Memory;
use std::alloc::Global;
use std::collections::{BTreeMap, BTreeSet};

/// Makes room for one more place in the bucket of the key, which is made where there is none.
pub(crate) fn reserve<K: Ord + Drop>(
    alloc: Global,
    buckets: &mut BTreeMap<K, Vec<usize>>,
    key: K,
) -> Result<(), Memory>
    ensures stays { KeepPlaces K.cmp buckets.old buckets.new }
    ensures room { OnOk result (0 < room_in K.cmp buckets.new key) }
{
    if widen(buckets, &key)? {
        return Ok(());
    }
    open(alloc, buckets, key)
}

// Makes room for one more place in the bucket of the key, where there is one, and says whether there
// is.
fn widen<K: Ord>(buckets: &mut BTreeMap<K, Vec<usize>>, key: &K) -> Result<bool, Memory>
    ensures stays { KeepPlaces K.cmp buckets.old buckets.new }
    ensures there { IfOk result (λ there. there ≡ is_some (get K.cmp buckets.new key.now)) }
    ensures room { IfOk result (λ there. there ≡ true → 0 < room_in K.cmp buckets.new key.now) }
{
    match buckets.get_mut(key) {
        Some(bucket) => {
            bucket.reserve(1)?;
            Ok(true)
        }
        None => Ok(false),
    }
}

// Makes an empty bucket of the key, which has none, with room for one place.
fn open<K: Ord + Drop>(
    alloc: Global,
    buckets: &mut BTreeMap<K, Vec<usize>>,
    key: K,
) -> Result<(), Memory>
    requires none { is_some (get K.cmp buckets.old key) ≡ false }
    ensures stays { KeepPlaces K.cmp buckets.old buckets.new }
    ensures room { OnOk result (0 < room_in K.cmp buckets.new key) }
{
    let bucket = Vec::with_capacity(alloc, 1)?;
    buckets.insert(key, bucket)?;
    Ok(())
}

/// Adds the place to the bucket of the key, unless the bucket ends with it: one that doesn't has room
/// for it. A policy's parts join one behind the other, so a bucket that they name twice has the place
/// once. It takes no memory.
pub(crate) fn join<K: Ord>(buckets: &mut BTreeMap<K, Vec<usize>>, key: &K, place: usize)
    requires room { takes_in K.cmp buckets.old key.now place ≡ true }
    ensures joined { (other : K) (at : ℕ) → is_in_bucket K.cmp buckets.new other at ≡ ((is_eq (K.cmp key.now other) && (place == at)) || is_in_bucket K.cmp buckets.old other at) }
    ensures rooms { StillTake K.cmp place buckets.old buckets.new }
{
    match buckets.get_mut(key) {
        Some(bucket) => put(bucket, place),
        None => unreachable!(),
    }
}

// Adds the place to the bucket, unless the bucket ends with it.
fn put(bucket: &mut Vec<usize>, place: usize)
    requires room { takes place (Some bucket.old) ≡ true }
    ensures places { (at : ℕ) → list_any (λ other. other == at) bucket.new.items ≡ ((place == at) || list_any (λ other. other == at) bucket.old.items) }
    ensures last { ends_with place bucket.new.items ≡ true }
{
    if is_last(bucket.as_slice(), place) {
        return;
    }
    bucket.push_reserved(place);
}

// Whether the place stands last.
fn is_last(bucket: &[usize], place: usize) -> bool
    ensures { result ≡ ends_with place bucket.now }
{
    match bucket.last() {
        Some(last) => *last == place,
        None => false,
    }
}

/// Shifts the places of all buckets. It takes no memory.
pub(crate) fn shift_all<K: Ord + Drop>(buckets: &mut BTreeMap<K, Vec<usize>>, shift: &Shift)
    ensures places { (key : K) (at : ℕ) → is_in_bucket K.cmp buckets.new key at ≡ (nat_lt at (2 ^ 64) && passes (is_in_bucket K.cmp buckets.old key) (came_from shift.now at)) }
    ensures rooms { (key : K) → room_in K.cmp buckets.old key ≤ room_in K.cmp buckets.new key }
{
    let shifts = |_: &K, bucket: &mut Vec<usize>| -> bool
        ensures { (result ≡ true) × ((at : ℕ) → list_any (λ place. place == at) bucket.exit.now.items ≡ (nat_lt at (2 ^ 64) && passes (λ from. list_any (λ place. place == from) bucket.entry.now.items) (came_from shift.entry.now at))) × (room_of (Some bucket.entry.now) ≤ room_of (Some bucket.exit.now)) }
    {
        shift_bucket(bucket, shift);
        true
    };
    buckets.retain(shifts);
}

/// Takes away the buckets that have no place. It takes no memory.
pub(crate) fn drop_empty<K: Ord + Drop>(buckets: &mut BTreeMap<K, Vec<usize>>)
    ensures places { (key : K) (at : ℕ) → is_in_bucket K.cmp buckets.new key at ≡ is_in_bucket K.cmp buckets.old key at }
    ensures left { NoneIsEmpty buckets.new }
{
    let stays = |_: &K, bucket: &mut Vec<usize>| -> bool
        ensures { (result ≡ not (length bucket.entry.now.items == 0)) × (bucket.exit.now.items ≡ bucket.entry.now.items) }
    { has_places(bucket.as_slice()) };
    buckets.retain(stays);
}

fn has_places(bucket: &[usize]) -> bool
    ensures { result ≡ not (length bucket.now == 0) }
{
    !bucket.is_empty()
}

/// Adds the places of the bucket of the key.
pub(crate) fn take_bucket<K: Ord>(
    places: &mut BTreeSet<usize>,
    buckets: &BTreeMap<K, Vec<usize>>,
    key: &K,
) -> Result<(), Memory>
    ensures { OnOk result ((at : ℕ) → contains nat_cmp places.new at ≡ (is_in_bucket K.cmp buckets.now key.now at || contains nat_cmp places.old at)) }
{
    match buckets.get(key) {
        Some(bucket) => take_all(places, bucket.as_slice()),
        None => Ok(()),
    }
}

/// Adds the places.
pub(crate) fn take_all(places: &mut BTreeSet<usize>, bucket: &[usize]) -> Result<(), Memory>
    ensures { OnOk result ((at : ℕ) → contains nat_cmp places.new at ≡ (list_any (λ place. place == at) bucket.now || contains nat_cmp places.old at)) }
{
    for place in bucket {
        take(places, *place)?;
    }
    Ok(())
}

/// Adds the place.
pub(crate) fn take(places: &mut BTreeSet<usize>, place: usize) -> Result<(), Memory>
    ensures { OnOk result ((at : ℕ) → contains nat_cmp places.new at ≡ ((place == at) || contains nat_cmp places.old at)) }
{
    places.insert(place)?;
    Ok(())
}
