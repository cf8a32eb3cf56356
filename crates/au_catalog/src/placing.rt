//! Entries that are put among those of a vector with room.
ghost use Rattle.std.specs.Prelude.{◌≡◌, ◌≤◌, ◌<◌, ◌+◌, IsTrue, drop as drop_list, length, map, not, take, vec_capacity, vec_len};
ghost use Rattle.std.specs.List.{filter};
ghost use Rattle.std.specs.Ordering.{is_gt, is_lt};
ghost use Rattle.au_base.specs.Order.{is_in_order};
ghost use Rattle.au_entries.specs.Changing.{put_in_order};
ghost use Rattle.au_catalog.specs.descent.Editing.{IsPlace};

use crate::keyed::Keyed;

/// Puts the entry among those that stand in the order of their keys, in place of one that has its
/// key. The vector has room for it, and the call takes no memory.
pub fn put_reserved<T: Keyed>(entries: &mut Vec<T>, entry: T)
    requires order { IsTrue (is_in_order (λ a b. is_lt (T.by a b)) (map T.key entries.old.items)) }
    requires room { vec_len entries.old < vec_capacity entries.old }
    ensures items { entries.new.items ≡ put_in_order (λ other. T.by (T.key other) (T.key entry)) entry entries.old.items }
    ensures size { length entries.new.items ≤ length entries.old.items + 1 }
    ensures capacity { vec_capacity entries.new ≡ vec_capacity entries.old }
{
    let place = place_of(entries.as_slice(), &entry);
    drop_equal(entries, place, &entry);
    let inserted = entries.insert(place, entry);
    drop(inserted);
}

// Where the entry stands or has to stand.
fn place_of<T: Keyed>(entries: &[T], entry: &T) -> usize
    requires order { IsTrue (is_in_order (λ a b. is_lt (T.by a b)) (map T.key entries.now)) }
    ensures { IsPlace (λ other. T.by (T.key other) (T.key entry.now)) entries.now result }
{
    entries.partition_point(|other| other.compare(entry).is_lt())
}

// Drops the entry at the place, where it has the key of this one.
fn drop_equal<T: Keyed>(entries: &mut Vec<T>, place: usize, entry: &T)
    requires order { IsTrue (is_in_order (λ a b. is_lt (T.by a b)) (map T.key entries.old.items)) }
    requires place { IsPlace (λ other. T.by (T.key other) (T.key entry.now)) entries.old.items place }
    ensures within { place ≤ length entries.new.items }
    ensures front { take place entries.new.items ≡ filter (λ other. is_lt (T.by (T.key other) (T.key entry.now))) entries.old.items }
    ensures rest { drop_list place entries.new.items ≡ filter (λ other. is_gt (T.by (T.key other) (T.key entry.now))) entries.old.items }
    ensures size { length entries.new.items ≤ length entries.old.items }
    ensures capacity { vec_capacity entries.new ≡ vec_capacity entries.old }
{
    if place < entries.len() && entries[place].compare(entry).is_eq() {
        drop(entries.remove(place));
    }
}
