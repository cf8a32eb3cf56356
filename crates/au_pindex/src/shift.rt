//! Places that change as policies come and go.
ghost use Rattle.std.specs.Prelude.{◌≡◌, ◌==◌, ◌&&◌, ◌^◌, ◌-◌, ◌≤◌, ℕ, nat_lt, vec_capacity, vec_len};
ghost use Rattle.std.specs.List.{list_any};
ghost use Rattle.au_pindex.specs.Places.{passes};
ghost use Rattle.au_pindex.specs.descent.Shifting.{came_from};

use std::collections::BTreeSet;

/// What becomes of places in buckets.
#[derive(Drop)]
pub(crate) enum Shift {
    /// A policy comes to stand at the place, and those from there on move up.
    Opens(usize),
    /// The policy at the place goes, and those behind it move down.
    Closes(usize),
    /// The policies at these places leave all buckets.
    Leaves(BTreeSet<usize>),
}

/// Shifts the places of the bucket. It takes no memory.
pub(crate) fn shift_bucket(bucket: &mut Vec<usize>, shift: &Shift)
    ensures places { (at : ℕ) → list_any (λ place. place == at) bucket.new.items ≡ (nat_lt at (2 ^ 64) && passes (λ from. list_any (λ place. place == from) bucket.old.items) (came_from shift.now at)) }
    ensures room { vec_capacity bucket.old - vec_len bucket.old ≤ vec_capacity bucket.new - vec_len bucket.new }
{
    let shifts = |place: &mut usize| -> bool
        ensures { (at : ℕ) → (result && (place.exit.now == at)) ≡ (nat_lt at (2 ^ 64) && passes (λ from. place.entry.now == from) (came_from shift.entry.now at)) }
    { shift_place(place, shift) };
    bucket.retain_mut(shifts);
}

// Shifts the place, and says whether it stays in its buckets.
fn shift_place(place: &mut usize, shift: &Shift) -> bool
    ensures { (at : ℕ) → (result && (place.new == at)) ≡ (nat_lt at (2 ^ 64) && passes (λ from. place.old == from) (came_from shift.now at)) }
{
    match shift {
        Shift::Opens(first) => move_up(place, *first),
        Shift::Closes(gone) => move_down(place, *gone),
        Shift::Leaves(places) => stays_in(*place, places),
    }
}

// Moves the place up from this one on. The last place that there can be has none above it.
fn move_up(place: &mut usize, first: usize) -> bool
    ensures { (at : ℕ) → (result && (place.new == at)) ≡ (nat_lt at (2 ^ 64) && passes (λ from. place.old == from) (came_from (Shift.Opens first) at)) }
{
    if *place < first {
        return true;
    }
    match place.checked_add(1) {
        Some(next) => {
            *place = next;
            true
        }
        None => false,
    }
}

// Moves the place down behind this one, which goes.
fn move_down(place: &mut usize, gone: usize) -> bool
    ensures { (at : ℕ) → (result && (place.new == at)) ≡ (nat_lt at (2 ^ 64) && passes (λ from. place.old == from) (came_from (Shift.Closes gone) at)) }
{
    if *place == gone {
        return false;
    }
    if *place > gone {
        *place -= 1;
    }
    true
}

// Whether the place isn't among those that leave.
fn stays_in(place: usize, leaving: &BTreeSet<usize>) -> bool
    ensures { (at : ℕ) → (result && (place == at)) ≡ (nat_lt at (2 ^ 64) && passes (λ from. place == from) (came_from (Shift.Leaves leaving.now) at)) }
{
    !leaving.contains(&place)
}
