//! Tables that go.
ghost use Rattle.std.specs.Prelude.{◌≡◌, ℕ, ◌+◌, ◌<◌, ◌≤◌, ◌^◌, None, filter, slice_index_or, true};
ghost use Rattle.std.specs.List.{list_all};
ghost use Rattle.au_rows.specs.Ends.{IsFreed, OnlyFrees, is_loose_slot, names_of};
ghost use Rattle.au_rows.specs.Kept.{SameInOthers, is_whole, place_elsewhere};
ghost use Rattle.au_rows.specs.Order.{in_order};

use crate::place::Place;
use crate::places::Places;
use crate::versions::Versions;
use au_base::RowNo;

/// Lets the committed version of a place of the table go.
fn free_of(versions: &mut Versions, place: Place, table: usize)
    requires same { place.table ≡ table }
    requires loose { is_loose_slot versions.old.slots place.table place.number.0 place.settled ≡ true }
    ensures others { SameInOthers table versions.old.slots versions.new.slots }
    ensures frees { OnlyFrees versions.old.slots versions.new.slots }
    ensures freed { (slot : ℕ) → names_of table slot place ≡ true → slice_index_or versions.new.slots slot None ≡ None }
    ensures room { versions.old.room ≤ versions.new.room }
{
    versions.free(place.settled);
}

/// Lets the committed versions of all places of the table go.
fn free_all(places: &Places, versions: &mut Versions, table: usize)
    requires order { in_order places.now.listed ≡ true }
    requires whole { list_all (is_whole versions.old.slots) places.now.listed ≡ true }
    ensures others { SameInOthers table versions.old.slots versions.new.slots }
    ensures frees { OnlyFrees versions.old.slots versions.new.slots }
    ensures freed { IsFreed table places.now.listed versions.new.slots }
    ensures room { versions.old.room ≤ versions.new.room }
{
    let mut walk = places.from(table, RowNo(0));
    while let Some(place) = walk.step() {
        if place.table as usize != table {
            return;
        }
        free_of(versions, place, table);
    }
}

/// Takes the rows of the table away.
pub(crate) fn drop_rows(places: &mut Places, versions: &mut Versions, table: usize)
    requires order { in_order places.old.listed ≡ true }
    requires whole { list_all (is_whole versions.old.slots) places.old.listed ≡ true }
    requires next { table + 1 < 2 ^ 64 }
    ensures listed { places.new.listed ≡ filter (place_elsewhere table) places.old.listed }
    ensures others { SameInOthers table versions.old.slots versions.new.slots }
    ensures frees { OnlyFrees versions.old.slots versions.new.slots }
    ensures freed { IsFreed table places.old.listed versions.new.slots }
    ensures room { versions.old.room ≤ versions.new.room }
    ensures places_room { places.new.room ≡ places.old.room }
    ensures tables { places.new.tables ≡ places.old.tables }
{
    free_all(places, versions, table);
    places.keep_elsewhere(table);
}
