//! The end of a client's changes, row by row.
ghost use Rattle.std.specs.Prelude.{◌≡◌, ◌+◌, ◌≤◌, [], ◌∷◌, IsSome, Some, filter, length, true};
ghost use Rattle.std.specs.List.{list_all};
ghost use Rattle.au_rows.specs.Edits.{edited};
ghost use Rattle.au_rows.specs.Ends.{EndedBefore, IsCovered, IsGone, RowEnded, SlotDropped, is_clear, is_loose};
ghost use Rattle.au_rows.specs.Kept.{is_apart, is_logged, is_owned, is_whole, place_at, place_ended, place_from, place_in, place_left, slot_ended, unsettled_others};
ghost use Rattle.au_rows.specs.Order.{in_order};
ghost use Rattle.au_rows.specs.Stored.{Frees};

use crate::changes::Changes;
use crate::ending::Ending;
use crate::place::Place;
use crate::places::Places;
use crate::unsettled::Unsettled;
use crate::versions::Versions;
use au_base::ClientNo;

/// The place after its owner's changes end.
fn ended(place: Place, ending: Ending) -> Place
    ensures place { result ≡ place_ended ending place }
    ensures table { result.table ≡ place.table }
    ensures number { result.number ≡ place.number }
{
    let settled = match ending {
        Ending::Settle => place.newest,
        Ending::Undo => place.settled,
    };
    Place {
        table: place.table,
        number: place.number,
        settled,
        owner: None,
        newest: None,
    }
}

/// The committed version that the owner's changes take the part of.
fn replaced(place: Place, ending: Ending) -> Option<u32>
    ensures { result ≡ slot_ended ending place }
{
    match ending {
        Ending::Settle => place.settled,
        Ending::Undo => None,
    }
}

/// Whether something is left of the place's row.
fn is_left(place: Place) -> bool
    ensures { result ≡ place_left place }
{
    place.settled.is_some() || place.owner.is_some()
}

/// Puts a place over the one of the same row, or takes this one away where nothing is left of it.
fn keep_left(places: &mut Places, place: Place)
    requires there { IsSome (place_in place.table place.number places.old.listed) }
    requires left { list_all place_left places.old.listed ≡ true }
    ensures listed { places.new.listed ≡ filter place_left (edited (place_from place.table place.number) (place_at place.table place.number) places.old.listed (place ∷ [])) }
    ensures room { places.new.room ≡ places.old.room }
    ensures tables { places.new.tables ≡ places.old.tables }
{
    if is_left(place) {
        places.put_over(place);
    } else {
        places.take_out(place.table as usize, place.number);
    }
}

/// Ends the changes of a place's owner.
fn end_place(places: &mut Places, versions: &mut Versions, place: Place, ending: Ending)
    requires there { place_in place.table place.number places.old.listed ≡ Some place }
    requires left { list_all place_left places.old.listed ≡ true }
    ensures listed { places.new.listed ≡ filter place_left (edited (place_from place.table place.number) (place_at place.table place.number) places.old.listed (place_ended ending place ∷ [])) }
    ensures frees { Frees versions.old.slots versions.new.slots (slot_ended ending place) }
    ensures room { versions.old.room ≤ versions.new.room }
    ensures places_room { places.new.room ≡ places.old.room }
    ensures tables { places.new.tables ≡ places.old.tables }
{
    versions.free(replaced(place, ending));
    keep_left(places, ended(place, ending));
}

/// Ends the changes of a place's owner, where that is the client.
fn end_if_own(
    places: &mut Places,
    versions: &mut Versions,
    place: Place,
    by: ClientNo,
    ending: Ending,
)
    requires order { in_order places.old.listed ≡ true }
    requires whole { list_all (is_whole versions.old.slots) places.old.listed ≡ true }
    requires left { list_all place_left places.old.listed ≡ true }
    requires there { place_in place.table place.number places.old.listed ≡ Some place }
    ensures left { list_all place_left places.new.listed ≡ true }
    ensures row { RowEnded ending place.table place.number by places.old.listed versions.old.slots places.new.listed versions.new.slots }
    ensures room { versions.old.room ≤ versions.new.room }
    ensures places_room { places.new.room ≡ places.old.room }
    ensures tables { places.new.tables ≡ places.old.tables }
{
    if place.is_by(by) {
        end_place(places, versions, place, ending);
    }
}

/// Ends the client's changes of the row of a change.
fn end_row(
    places: &mut Places,
    versions: &mut Versions,
    change: Unsettled,
    by: ClientNo,
    ending: Ending,
)
    requires order { in_order places.old.listed ≡ true }
    requires whole { list_all (is_whole versions.old.slots) places.old.listed ≡ true }
    requires left { list_all place_left places.old.listed ≡ true }
    ensures left { list_all place_left places.new.listed ≡ true }
    ensures row { RowEnded ending change.table change.number by places.old.listed versions.old.slots places.new.listed versions.new.slots }
    ensures room { versions.old.room ≤ versions.new.room }
    ensures places_room { places.new.room ≡ places.old.room }
    ensures tables { places.new.tables ≡ places.old.tables }
{
    if let Some(place) = places.find(change.table as usize, change.number) {
        end_if_own(places, versions, place, by, ending);
    }
}

fn is_apart(a: Option<u32>, b: Option<u32>) -> bool
    ensures { result ≡ is_apart a b }
{
    match a {
        None => true,
        Some(a) => match b {
            None => true,
            Some(b) => a != b,
        },
    }
}

fn is_clear(place: Option<Place>, slot: Option<u32>) -> bool
    ensures { result ≡ is_clear slot place }
{
    match place {
        Some(place) => is_apart(place.settled, slot) && is_apart(place.newest, slot),
        None => true,
    }
}

/// Lets the version of a change go, unless the place of its row names it.
fn drop_version(places: &Places, versions: &mut Versions, change: Unsettled)
    requires order { in_order places.now.listed ≡ true }
    requires whole { list_all (is_whole versions.old.slots) places.now.listed ≡ true }
    requires loose { is_loose versions.old.slots change ≡ true }
    ensures dropped { SlotDropped change.table change.number places.now.listed versions.old.slots versions.new.slots }
    ensures gone { IsGone change.slot (place_in change.table change.number places.now.listed) versions.new.slots }
    ensures room { versions.old.room ≤ versions.new.room }
{
    if is_clear(
        places.find(change.table as usize, change.number),
        change.slot,
    ) {
        versions.free(change.slot);
    }
}

/// Ends the client's changes of the row of one of its changes, and lets the version of this change
/// go where nothing names it.
fn end_change(
    places: &mut Places,
    versions: &mut Versions,
    change: Unsettled,
    by: ClientNo,
    ending: Ending,
)
    requires order { in_order places.old.listed ≡ true }
    requires whole { list_all (is_whole versions.old.slots) places.old.listed ≡ true }
    requires left { list_all place_left places.old.listed ≡ true }
    requires loose { is_loose versions.old.slots change ≡ true }
    ensures gone { IsGone change.slot (place_in change.table change.number places.new.listed) versions.new.slots }
    ensures left { list_all place_left places.new.listed ≡ true }
    ensures row { RowEnded ending change.table change.number by places.old.listed versions.old.slots places.new.listed versions.new.slots }
    ensures room { versions.old.room ≤ versions.new.room }
    ensures places_room { places.new.room ≡ places.old.room }
    ensures tables { places.new.tables ≡ places.old.tables }
{
    end_row(places, versions, change, by, ending);
    drop_version(places, versions, change);
}

/// Ends the client's changes, the newest first.
pub(crate) fn end_all(
    places: &mut Places,
    versions: &mut Versions,
    changes: &mut Changes,
    by: ClientNo,
    ending: Ending,
)
    requires order { in_order places.old.listed ≡ true }
    requires whole { list_all (is_whole versions.old.slots) places.old.listed ≡ true }
    requires left { list_all place_left places.old.listed ≡ true }
    requires logged { list_all (is_logged versions.old.slots) changes.old.listed ≡ true }
    requires owned { list_all (is_owned places.old.listed) changes.old.listed ≡ true }
    requires covered { IsCovered by places.old.listed changes.old.listed }
    ensures left { list_all place_left places.new.listed ≡ true }
    ensures ended { EndedBefore ending by [] changes.old.listed places.old.listed versions.old.slots places.new.listed versions.new.slots }
    ensures others { changes.new.listed ≡ filter (unsettled_others by) changes.old.listed }
    ensures room { versions.old.room ≤ versions.new.room }
    ensures places_room { places.new.room ≡ places.old.room }
    ensures tables { places.new.tables ≡ places.old.tables }
    ensures changes_room { changes.old.room + length changes.old.listed ≤ changes.new.room + length changes.new.listed }
{
    while let Some(change) = changes.pop(by) {
        end_change(places, versions, change, by, ending);
    }
}
