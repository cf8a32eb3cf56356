//! Places in order of table and number.
ghost use Rattle.std.specs.Prelude.{◌≡◌, IsNone, IsSome, [], ◌∷◌, ◌+◌, ◌<◌, ◌≤◌, false, true, length, slice_get, vec_len, vec_capacity};
ghost use Rattle.std.specs.List.{position_or_len};
ghost use Rattle.std.specs.Option.{option_and_then, option_map_or};
ghost use Rattle.au_rows.specs.Edits.{edited};
ghost use Rattle.au_rows.specs.Order.{in_order};
ghost use Rattle.au_rows.specs.Kept.{place_from, place_if, place_in, place_at};

use crate::place::Place;
use au_base::RowNo;

/// The index of the first place of this row or of a later one, or the number of places.
pub(crate) fn index_of(places: &[Place], table: usize, number: RowNo) -> usize
    requires { in_order places.now ≡ true }
    ensures index { result ≡ position_or_len (place_from table number) places.now }
    ensures within { result ≤ length places.now }
{
    let mut low = 0;
    let mut high = places.len();
    while low < high {
        let mid = low + (high - low) / 2;
        if places[mid].is_from(table, number) {
            high = mid;
        } else {
            low = mid + 1;
        }
    }
    low
}

fn is_there(places: &[Place], at: usize, table: usize, number: RowNo) -> bool
    ensures { result ≡ option_map_or (place_at table number) (slice_get places.now at) false }
{
    match places.get(at) {
        Some(place) => place.is_this(table, number),
        None => false,
    }
}

fn place_at_index(places: &[Place], at: usize, table: usize, number: RowNo) -> Option<Place>
    ensures { result ≡ option_and_then (place_if table number) (slice_get places.now at) }
{
    match places.get(at) {
        Some(place) => {
            if place.is_this(table, number) {
                Some(*place)
            } else {
                None
            }
        }
        None => None,
    }
}

/// The place of the row.
#[tactic(auto, using(crate::proofs::EditLemmas::found_steps))]
pub(crate) fn find(places: &[Place], table: usize, number: RowNo) -> Option<Place>
    requires { in_order places.now ≡ true }
    ensures { result ≡ place_in table number places.now }
{
    place_at_index(places, index_of(places, table, number), table, number)
}

/// Puts a place where it belongs, over the one of the same row. A row that is new needs room.
#[tactic(auto, using(crate::proofs::EditLemmas::found_steps))]
pub(crate) fn write(places: &mut Vec<Place>, place: Place)
    requires order { in_order places.old.items ≡ true }
    requires room { IsNone (place_in place.table place.number places.old.items) → vec_len places.old < vec_capacity places.old }
    ensures items { places.new.items ≡ edited (place_from place.table place.number) (place_at place.table place.number) places.old.items (place ∷ []) }
    ensures len { vec_len places.new ≤ vec_len places.old + 1 }
    ensures in_place { IsSome (place_in place.table place.number places.old.items) → vec_len places.new ≡ vec_len places.old }
    ensures capacity { vec_capacity places.old ≤ vec_capacity places.new }
{
    let at = index_of(places, place.table as usize, place.number);
    if is_there(places, at, place.table as usize, place.number) {
        places[at] = place;
    } else if places.insert(at, place).is_err() {
        unreachable!();
    }
}

/// Takes the place of a row away, where there is one.
#[tactic(auto, using(crate::proofs::EditLemmas::found_steps))]
pub(crate) fn take_out(places: &mut Vec<Place>, table: usize, number: RowNo)
    requires { in_order places.old.items ≡ true }
    ensures items { places.new.items ≡ edited (place_from table number) (place_at table number) places.old.items [] }
    ensures len { vec_len places.new ≤ vec_len places.old }
    ensures capacity { vec_capacity places.new ≡ vec_capacity places.old }
{
    let at = index_of(places, table, number);
    if is_there(places, at, table, number) {
        let _gone = places.remove(at);
    }
}
