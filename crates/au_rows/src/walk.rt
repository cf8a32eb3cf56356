//! Places one after another.
ghost use Rattle.std.specs.Prelude.{◌≡◌, ◌∷◌, ◌++◌, ◌<◌, ◌≤◌, [], MatchOption, drop, length, suc, true};
ghost use Rattle.std.specs.List.{position_or_len};
ghost use Rattle.au_rows.specs.Blocks.{is_filled, joined};
ghost use Rattle.au_rows.specs.Kept.{place_from};
ghost use Rattle.au_rows.specs.Order.{in_order};

use crate::block::Block;
use crate::blocks::home_of;
use crate::ordered::index_of;
use crate::place::Place;
use au_base::RowNo;
use std::marker::Model;

/// A walk over places. Contracts see those that are still to come.
#[derive(Drop)]
pub struct Walk<'a> {
    /// The rest of a block.
    block: &'a [Place],
    /// The blocks behind it.
    later: &'a [Block],
}

impl<'a> Model for Walk<'a> {
    ghost use Rattle.std.specs.Prelude.{List, ◌++◌};
    ghost use Rattle.au_rows.specs.declared.place.Place.{Place as Kept};
    ghost use Rattle.au_rows.specs.Blocks.{joined};

    ghost Value = { List Kept };

    ghost view = { λ w. w.block.now ++ joined w.later.now };
}

impl<'a> Walk<'a> {
    /// A walk over the rest of a block and the blocks behind it.
    pub(crate) fn new(block: &'a [Place], later: &'a [Block]) -> Self
        ensures { result ≡ block.now ++ joined later.now }
    {
        Walk { block, later }
    }

    /// The next place. `None` exactly where none is still to come.
    pub(crate) fn step(&mut self) -> Option<Place>
        ensures { MatchOption result (self.old ≡ []) (λ place. self.old ≡ place ∷ self.new) }
    {
        let (block, later) = begun(self.block, self.later);
        self.later = later;
        match block.split_first() {
            Some((place, rest)) => {
                self.block = rest;
                Some(*place)
            }
            None => {
                self.block = block;
                None
            }
        }
    }
}

/// The same places, in a block with a place and the blocks behind it, where there is any.
fn begun<'a>(mut block: &'a [Place], mut later: &'a [Block]) -> (&'a [Place], &'a [Block])
    ensures same { result.0.now ++ joined result.1.now ≡ block.now ++ joined later.now }
    ensures none { result.0.now ≡ [] → joined result.1.now ≡ [] }
{
    while block.is_empty() {
        match later.split_first() {
            Some((first, rest)) => {
                block = first.places();
                later = rest;
            }
            None => return (block, later),
        }
    }
    (block, later)
}

/// The places from an index on.
fn rest_of(places: &[Place], first: usize) -> &[Place]
    requires { first ≤ length places.now }
    ensures { result.now ≡ drop first places.now }
{
    &places[first..]
}

/// The blocks behind the one at the index.
fn behind(blocks: &[Block], at: usize) -> &[Block]
    requires { at < length blocks.now }
    ensures { result.now ≡ drop (suc at) blocks.now }
{
    &blocks[at + 1..]
}

/// A walk over the places from that of a row on, or from where it would stand.
pub(crate) fn walk_from(blocks: &[Block], table: usize, number: RowNo) -> Walk<'_>
    requires some { 0 < length blocks.now }
    requires order { in_order (joined blocks.now) ≡ true }
    requires filled { is_filled blocks.now ≡ true }
    ensures { result ≡ drop (position_or_len (place_from table number) (joined blocks.now)) (joined blocks.now) }
{
    let at = home_of(blocks, table, number);
    let block = blocks[at].places();
    let first = index_of(block, table, number);
    Walk::new(rest_of(block, first), behind(blocks, at))
}
