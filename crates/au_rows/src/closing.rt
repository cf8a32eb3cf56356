//! The end of all changes of a client.
ghost use Rattle.std.specs.Prelude.{◌≡◌, ◌+◌, ◌≤◌, List, Option, map, true};
ghost use Rattle.std.specs.List.{count_by, list_all};
ghost use Rattle.au_rows.specs.declared.table.Table.{Table};
ghost use Rattle.au_rows.specs.Held.{all_ended, changes_of_others};
ghost use Rattle.au_rows.specs.Kept.{IsIndexed, Sound, change_of, held_of, place_open, place_shown};

use crate::changes::Changes;
use crate::ending::Ending;
use crate::ends::end_all;
use crate::places::Places;
use crate::versions::Versions;
use au_base::ClientNo;

/// Ends all changes of the client.
pub(crate) fn end_changes(
    places: &mut Places,
    versions: &mut Versions,
    changes: &mut Changes,
    by: ClientNo,
    ending: Ending,
)
    requires { Sound places.old.listed versions.old.slots changes.old.listed }
    ensures sound { Sound places.new.listed versions.new.slots changes.new.listed }
    ensures open { (tables : List (Option Table)) → list_all (place_open tables) places.old.listed ≡ true → list_all (place_open tables) places.new.listed ≡ true }
    ensures indexed { (tables : List (Option Table)) → IsIndexed tables versions.old.slots → IsIndexed tables versions.new.slots }
    ensures held { map (held_of versions.new.slots) places.new.listed ≡ all_ended ending by (map (held_of versions.old.slots) places.old.listed) }
    ensures changes { map (change_of versions.new.slots) changes.new.listed ≡ changes_of_others by (map (change_of versions.old.slots) changes.old.listed) }
    ensures taken { changes.old.room + count_by place_shown places.new.listed ≤ changes.new.room + count_by place_shown places.old.listed }
    ensures room { versions.old.room ≤ versions.new.room }
    ensures places_room { places.new.room ≡ places.old.room }
    ensures tables { places.new.tables ≡ places.old.tables }
{
    end_all(places, versions, changes, by, ending);
}
