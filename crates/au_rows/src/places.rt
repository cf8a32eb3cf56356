//! The places of all rows.
ghost use Rattle.std.specs.Prelude.{◌≡◌, [], ◌∷◌, ◌+◌, ◌<◌, ◌≤◌, ◌^◌, IfOk, IsNone, IsSome, OnOk, Some, drop, filter, length, true};
ghost use Rattle.std.specs.List.{count_by, position_or_len};
ghost use Rattle.au_rows.specs.Edits.{edited};
ghost use Rattle.au_rows.specs.Kept.{largest_in, owner_in, place_at, place_elsewhere, place_from, place_in, place_of, settled_slot, with_place};
ghost use Rattle.au_rows.specs.Order.{in_order};

use crate::block::{Block, SIZE};
use crate::blocks::{
    blocks_for, find_in, keep_elsewhere, largest_in, prepare, put_new, put_over, take_from,
};
use crate::counts::{count_less, count_more, count_none, count_of, count_to};
use crate::place::Place;
use crate::walk::{Walk, walk_from};
use au_base::{ClientNo, Memory, RowNo};
use std::alloc::Global;
use std::marker::Model;

/// How many places there are at most, with those for which there is room: fewer than this.
const MOST: usize = 1 << 32;

/// The places of all rows, in order of table and number. Contracts see the list of them, of how many
/// new rows it takes places without memory, and of how many tables it counts the places.
#[derive(Drop)]
pub struct Places {
    /// The places, in blocks one behind the other.
    blocks: Vec<Block>,
    /// Blocks without places, for those that are split.
    fresh: Vec<Block>,
    len: usize,
    room: usize,
    /// How many places each table has.
    counts: Vec<u32>,
}

impl Model for Places {
    ghost use Rattle.au_rows.specs.Blocks.{Counted};

    ghost Value = { Counted };

    ghost use Rattle.std.specs.Prelude.{◌≤◌, ◌+◌, ◌^◌, length, vec_len, vec_capacity};
    ghost use Rattle.au_rows.specs.Blocks.{Housed, joined};

    ghost view = { λ p. record { listed = joined p.blocks.items; room = p.room; tables = length p.counts.items } };

    ghost invariant = { λ p. Housed p.blocks.items p.fresh.items p.len p.room p.counts.items × (vec_len p.blocks + vec_len p.fresh ≤ vec_capacity p.blocks) × (length p.counts.items ≤ 2 ^ 32) };
}

impl Places {
    /// No place, and no room.
    pub(crate) fn new(alloc: Global) -> Result<Self, Memory>
        ensures listed { IfOk result (λ places. places.listed ≡ []) }
        ensures room { IfOk result (λ places. places.room ≡ 0) }
        ensures tables { IfOk result (λ places. places.tables ≡ 0) }
    {
        let mut blocks = Vec::new(alloc);
        blocks.push(Block::new(alloc)?)?;
        Ok(Places {
            blocks,
            fresh: Vec::new(alloc),
            len: 0,
            room: 0,
            counts: Vec::new(alloc),
        })
    }

    /// Makes room for the places of so many more rows.
    pub(crate) fn reserve(&mut self, more: usize) -> Result<(), Memory>
        ensures ok { OnOk result (more ≤ self.new.room) }
        ensures listed { self.new.listed ≡ self.old.listed }
        ensures room { self.old.room ≤ self.new.room }
        ensures tables { self.new.tables ≡ self.old.tables }
    {
        if more <= self.room {
            return Ok(());
        }
        // a little more than is needed, so that the blocks are seldom passed over
        let room = more.max(SIZE);
        if MOST - self.len <= room {
            return Err(Memory);
        }
        let count = blocks_for(&self.blocks, room)?;
        prepare(&mut self.blocks, &mut self.fresh, count)?;
        self.room = room;
        Ok(())
    }

    /// Counts the places of so many tables.
    pub(crate) fn count_tables(&mut self, tables: usize) -> Result<(), Memory>
        ensures ok { OnOk result (tables ≤ self.new.tables) }
        ensures listed { self.new.listed ≡ self.old.listed }
        ensures room { self.new.room ≡ self.old.room }
        ensures tables { self.old.tables ≤ self.new.tables }
    {
        if MOST < tables {
            return Err(Memory);
        }
        count_to(&mut self.counts, tables)
    }

    /// The number of a table whose places are counted.
    pub(crate) fn short(&self, table: usize) -> u32
        requires { table < self.now.tables }
        ensures { result ≡ table }
    {
        let _counts = &self.counts;
        table as u32
    }

    /// How many places there are.
    pub(crate) fn len(&self) -> usize
        ensures { result ≡ length self.now.listed }
    {
        self.len
    }

    /// The place of the row.
    pub(crate) fn find(&self, table: usize, number: RowNo) -> Option<Place>
        ensures { result ≡ place_in table number self.now.listed }
    {
        find_in(&self.blocks, table, number)
    }

    /// The client with unsettled changes of the row.
    pub(crate) fn owner(&self, table: usize, number: RowNo) -> Option<ClientNo>
        ensures { result ≡ owner_in table number self.now.listed }
    {
        match self.find(table, number) {
            Some(place) => place.owner,
            None => None,
        }
    }

    /// The slot of the row's committed content.
    pub(crate) fn settled(&self, table: usize, number: RowNo) -> Option<u32>
        ensures { result ≡ settled_slot table number self.now.listed }
    {
        match self.find(table, number) {
            Some(place) => place.settled,
            None => None,
        }
    }

    /// The places from that of a row on, or from where it would stand.
    pub(crate) fn from(&self, table: usize, number: RowNo) -> Walk<'_>
        ensures { result ≡ drop (position_or_len (place_from table number) self.now.listed) self.now.listed }
    {
        walk_from(&self.blocks, table, number)
    }

    /// How many places the table has, and the largest of their row numbers, 0 where it has none.
    pub(crate) fn numbers(&self, table: usize) -> (u32, u32)
        requires { table + 1 < 2 ^ 64 }
        ensures count { result.0 ≡ count_by (place_of table) self.now.listed }
        ensures largest { result.1 ≡ largest_in table self.now.listed }
    {
        let count = count_of(&self.counts, table);
        if count == 0 {
            (0, 0)
        } else {
            (count, largest_in(&self.blocks, table))
        }
    }

    /// Puts a place over the one of the same row.
    pub(crate) fn put_over(&mut self, place: Place)
        requires { IsSome (place_in place.table place.number self.old.listed) }
        ensures listed { self.new.listed ≡ edited (place_from place.table place.number) (place_at place.table place.number) self.old.listed (place ∷ []) }
        ensures room { self.new.room ≡ self.old.room }
        ensures tables { self.new.tables ≡ self.old.tables }
    {
        put_over(&mut self.blocks, place);
    }

    /// Puts a new row's place where it belongs. It takes no memory.
    fn put_new(&mut self, place: Place)
        requires new { IsNone (place_in place.table place.number self.old.listed) }
        requires numbered { 1 ≤ place.number.0 }
        requires counted { place.table < self.old.tables }
        requires room { 0 < self.old.room }
        ensures listed { self.new.listed ≡ edited (place_from place.table place.number) (place_at place.table place.number) self.old.listed (place ∷ []) }
        ensures room { self.old.room ≤ self.new.room + 1 }
        ensures tables { self.new.tables ≡ self.old.tables }
    {
        put_new(&mut self.blocks, &mut self.fresh, place);
        count_more(&mut self.counts, place.table as usize);
        self.len += 1;
        self.room -= 1;
    }

    /// Lets a client name a slot at a row. It takes no memory; a row that is new needs room.
    pub(crate) fn own(&mut self, table: usize, number: RowNo, by: ClientNo, slot: Option<u32>)
        requires numbered { 1 ≤ number.0 }
        requires counted { table < self.old.tables }
        requires room { IsNone (place_in table number self.old.listed) → 0 < self.old.room }
        ensures listed { self.new.listed ≡ with_place table number by slot self.old.listed }
        ensures room { self.old.room ≤ self.new.room + 1 }
        ensures in_place { IsSome (place_in table number self.old.listed) → self.new.room ≡ self.old.room }
        ensures tables { self.new.tables ≡ self.old.tables }
    {
        let short = self.short(table);
        match self.find(table, number) {
            Some(place) => self.put_over(owned(short, number, place.settled, by, slot)),
            None => self.put_new(owned(short, number, None, by, slot)),
        }
    }

    /// Takes the place of the row away. It takes no memory.
    pub(crate) fn take_out(&mut self, table: usize, number: RowNo)
        requires { IsSome (place_in table number self.old.listed) }
        ensures listed { self.new.listed ≡ edited (place_from table number) (place_at table number) self.old.listed [] }
        ensures room { self.new.room ≡ self.old.room }
        ensures tables { self.new.tables ≡ self.old.tables }
    {
        take_from(&mut self.blocks, table, number);
        count_less(&mut self.counts, table);
        self.len -= 1;
    }

    /// Takes the places of the table's rows away.
    pub(crate) fn keep_elsewhere(&mut self, table: usize)
        requires { table + 1 < 2 ^ 64 }
        ensures listed { self.new.listed ≡ filter (place_elsewhere table) self.old.listed }
        ensures room { self.new.room ≡ self.old.room }
        ensures tables { self.new.tables ≡ self.old.tables }
    {
        keep_elsewhere(&mut self.blocks, table);
        self.len -= count_of(&self.counts, table) as usize;
        count_none(&mut self.counts, table);
    }

    /// The places are in order.
    pub(crate) fn order(&self)
        ensures { in_order self.now.listed ≡ true }
    {
        let _blocks = &self.blocks;
    }
}

/// The place of a row at which a client names a slot.
fn owned(table: u32, number: RowNo, settled: Option<u32>, by: ClientNo, slot: Option<u32>) -> Place
    ensures { result ≡ record { table = table; number = number; settled = settled; owner = Some by; newest = slot } }
{
    Place {
        table,
        number,
        settled,
        owner: Some(by),
        newest: slot,
    }
}
