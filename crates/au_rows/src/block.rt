//! Blocks of places.
ghost use Rattle.std.specs.Prelude.{◌≡◌, ◌↔◌, [], ◌∷◌, ◌<◌, ◌≤◌, ◌+◌, filter, IfOk, IsNone, IsSome, IsTrue, drop, length, take, true, vec_len, vec_capacity};
ghost use Rattle.au_rows.specs.Blocks.{excess, has_none, starts_past};
ghost use Rattle.au_rows.specs.Edits.{edited};
ghost use Rattle.au_rows.specs.Kept.{place_at, place_elsewhere, place_from, place_in};
ghost use Rattle.au_rows.specs.Order.{in_order};

use crate::ordered::{take_out, write};
use crate::place::Place;
use au_base::{Memory, RowNo};
use std::alloc::Global;
use std::marker::Model;

/// How many places a block holds.
pub(crate) const SIZE: usize = 512;

/// How many places of a full block stay where it is split.
const LOWER: usize = 384;

/// At most 512 places, for which it has room. Contracts see the list of them.
#[derive(Drop)]
pub struct Block {
    places: Vec<Place>,
}

impl Model for Block {
    ghost use Rattle.std.specs.Prelude.{List, ◌≤◌, vec_len, vec_capacity};
    ghost use Rattle.au_rows.specs.declared.place.Place.{Place as Kept};

    ghost Value = { List Kept };

    ghost view = { λ b. b.places.items };

    ghost invariant = { λ b. (vec_len b.places ≤ 512) × (512 ≤ vec_capacity b.places) };
}

impl Block {
    /// A block without places.
    pub(crate) fn new(alloc: Global) -> Result<Self, Memory>
        ensures { IfOk result (λ block. block ≡ []) }
    {
        Ok(Block {
            places: Vec::with_capacity(alloc, SIZE)?,
        })
    }

    /// Its places.
    pub(crate) fn places(&self) -> &[Place]
        ensures { result.now ≡ self.now }
    {
        &self.places
    }

    /// Whether it has no place.
    pub(crate) fn is_empty(&self) -> bool
        ensures { result ≡ has_none self.now }
    {
        self.places.is_empty()
    }

    /// Whether it holds no more places.
    pub(crate) fn is_full(&self) -> bool
        ensures { IsTrue result ↔ (512 ≤ length self.now) }
    {
        SIZE <= self.places.len()
    }

    /// How many places it has over three quarters of what it holds.
    pub(crate) fn excess(&self) -> usize
        ensures { result ≡ excess self.now }
    {
        self.places.len().saturating_sub(LOWER)
    }

    /// Whether its first place is of a row behind this one.
    pub(crate) fn starts_past(&self, table: usize, number: RowNo) -> bool
        ensures { result ≡ starts_past table number self.now }
    {
        match self.places.first() {
            Some(place) => place.is_past(table, number),
            None => false,
        }
    }

    /// Puts a place where it belongs, over the one of the same row.
    pub(crate) fn put(&mut self, place: Place)
        requires order { in_order self.old ≡ true }
        requires room { IsNone (place_in place.table place.number self.old) → length self.old < 512 }
        ensures places { self.new ≡ edited (place_from place.table place.number) (place_at place.table place.number) self.old (place ∷ []) }
        ensures len { length self.new ≤ length self.old + 1 }
        ensures in_place { IsSome (place_in place.table place.number self.old) → length self.new ≡ length self.old }
    {
        write(&mut self.places, place);
    }

    /// Takes the row's place away, where there is one.
    pub(crate) fn take_out(&mut self, table: usize, number: RowNo)
        requires { in_order self.old ≡ true }
        ensures places { self.new ≡ edited (place_from table number) (place_at table number) self.old [] }
        ensures len { length self.new ≤ length self.old }
    {
        take_out(&mut self.places, table, number);
    }

    /// Moves the last quarter of its places into another block.
    pub(crate) fn split(&mut self, upper: &mut Block)
        requires full { 512 ≤ length self.old }
        requires vacant { upper.old ≡ [] }
        ensures lower { self.new ≡ take 384 self.old }
        ensures upper { upper.new ≡ drop 384 self.old }
        ensures size { length self.old ≡ 512 }
    {
        move_back(&mut self.places, &mut upper.places);
    }

    /// Takes the places of the table's rows away.
    pub(crate) fn keep_elsewhere(&mut self, table: usize)
        ensures places { self.new ≡ filter (place_elsewhere table) self.old }
        ensures len { length self.new ≤ length self.old }
    {
        keep_elsewhere(&mut self.places, table);
    }
}

fn keep_elsewhere(places: &mut Vec<Place>, table: usize)
    ensures items { places.new.items ≡ filter (place_elsewhere table) places.old.items }
    ensures len { vec_len places.new ≤ vec_len places.old }
    ensures capacity { vec_capacity places.new ≡ vec_capacity places.old }
{
    places.retain(|place| place.table as usize != table);
}

fn move_back(lower: &mut Vec<Place>, upper: &mut Vec<Place>)
    requires size { vec_len lower.old ≡ 512 }
    requires vacant { upper.old.items ≡ [] }
    requires room { 512 ≤ vec_capacity upper.old }
    ensures lower { lower.new.items ≡ take 384 lower.old.items }
    ensures upper { upper.new.items ≡ drop 384 lower.old.items }
    ensures lower_room { vec_capacity lower.new ≡ vec_capacity lower.old }
    ensures upper_room { vec_capacity upper.old ≤ vec_capacity upper.new }
{
    let (_lower, back) = lower.split_at(LOWER);
    if upper.extend_from_slice(back).is_err() {
        unreachable!();
    }
    lower.truncate(LOWER);
}
