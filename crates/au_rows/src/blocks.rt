//! Blocks of places, one behind the other, so that a new place moves no more than those of its block.
ghost use Rattle.std.specs.Prelude.{◌≡◌, ℕ, [], ◌∷◌, ◌++◌, ◌+◌, ◌*◌, ◌<◌, ◌≤◌, ◌^◌, ◌↔◌, IfOk, IfSome, IsNone, IsSome, IsTrue, OnOk, drop, false, filter, if◌then◌else◌, insert, length, max, slice_index_or, slice_set, suc, take, true, vec_len, vec_capacity};
ghost use Rattle.std.specs.List.{count_by, list_all};
ghost use Rattle.au_rows.specs.Blocks.{IsHome, all_excess, has_none, is_filled, is_filled_but, joined, parted_at, starts_past};
ghost use Rattle.au_rows.specs.Edits.{edited};
ghost use Rattle.au_rows.specs.Kept.{largest_in, place_at, place_elsewhere, place_from, place_in, place_numbered, place_of};
ghost use Rattle.au_rows.specs.Order.{in_order};

use crate::block::Block;
use crate::ordered::{find, index_of};
use crate::place::Place;
use au_base::{Memory, RowNo};
use std::alloc::Global;

/// How many of a block's places are moved where it is split.
const MOVED: usize = 128;

/// The index of the first block that starts with a place of a row behind this one, or how many
/// blocks there are.
fn first_past(blocks: &[Block], table: usize, number: RowNo) -> usize
    requires order { in_order (joined blocks.now) ≡ true }
    requires filled { is_filled blocks.now ≡ true }
    ensures within { result ≤ length blocks.now }
    ensures below { (k : ℕ) → k < result → starts_past table number (slice_index_or blocks.now k []) ≡ false }
    ensures above { result < length blocks.now → starts_past table number (slice_index_or blocks.now result []) ≡ true }
{
    let mut low = 0;
    let mut high = blocks.len();
    while low < high {
        let mid = low + (high - low) / 2;
        if blocks[mid].starts_past(table, number) {
            high = mid;
        } else {
            low = mid + 1;
        }
    }
    low
}

/// The index of the block in which the row's place stands, or into which it would belong.
pub(crate) fn home_of(blocks: &[Block], table: usize, number: RowNo) -> usize
    requires some { 0 < length blocks.now }
    requires order { in_order (joined blocks.now) ≡ true }
    requires filled { is_filled blocks.now ≡ true }
    ensures home { IsHome table number blocks.now result }
    ensures begins { 0 < result → starts_past table number (slice_index_or blocks.now result []) ≡ false }
{
    let past = first_past(blocks, table, number);
    if past == 0 { 0 } else { past - 1 }
}

/// The place of the row.
pub(crate) fn find_in(blocks: &[Block], table: usize, number: RowNo) -> Option<Place>
    requires some { 0 < length blocks.now }
    requires order { in_order (joined blocks.now) ≡ true }
    requires filled { is_filled blocks.now ≡ true }
    ensures { result ≡ place_in table number (joined blocks.now) }
{
    let at = home_of(blocks, table, number);
    find(blocks[at].places(), table, number)
}

/// Puts a place into its block, over the one of the same row.
fn put_at(blocks: &mut Vec<Block>, at: usize, place: Place)
    requires home { IsHome place.table place.number blocks.old.items at }
    requires order { in_order (joined blocks.old.items) ≡ true }
    requires filled { is_filled blocks.old.items ≡ true }
    requires room { IsNone (place_in place.table place.number (joined blocks.old.items)) → length (slice_index_or blocks.old.items at []) < 512 }
    ensures places { joined blocks.new.items ≡ edited (place_from place.table place.number) (place_at place.table place.number) (joined blocks.old.items) (place ∷ []) }
    ensures filled { is_filled blocks.new.items ≡ true }
    ensures excess { all_excess blocks.new.items ≤ all_excess blocks.old.items + 1 }
    ensures in_place { IsSome (place_in place.table place.number (joined blocks.old.items)) → all_excess blocks.new.items ≡ all_excess blocks.old.items }
    ensures len { vec_len blocks.new ≡ vec_len blocks.old }
    ensures capacity { vec_capacity blocks.new ≡ vec_capacity blocks.old }
{
    blocks[at].put(place);
}

/// Puts a place over the one of the same row.
pub(crate) fn put_over(blocks: &mut Vec<Block>, place: Place)
    requires some { 0 < length blocks.old.items }
    requires order { in_order (joined blocks.old.items) ≡ true }
    requires filled { is_filled blocks.old.items ≡ true }
    requires there { IsSome (place_in place.table place.number (joined blocks.old.items)) }
    ensures places { joined blocks.new.items ≡ edited (place_from place.table place.number) (place_at place.table place.number) (joined blocks.old.items) (place ∷ []) }
    ensures filled { is_filled blocks.new.items ≡ true }
    ensures excess { all_excess blocks.new.items ≡ all_excess blocks.old.items }
    ensures len { vec_len blocks.new ≡ vec_len blocks.old }
    ensures capacity { vec_capacity blocks.new ≡ vec_capacity blocks.old }
{
    let at = home_of(blocks, place.table as usize, place.number);
    put_at(blocks, at, place);
}

fn is_full_at(blocks: &[Block], at: usize) -> bool
    requires { at < length blocks.now }
    ensures { IsTrue result ↔ (512 ≤ length (slice_index_or blocks.now at [])) }
{
    blocks[at].is_full()
}

fn is_empty_at(blocks: &[Block], at: usize) -> bool
    requires { at < length blocks.now }
    ensures { result ≡ has_none (slice_index_or blocks.now at []) }
{
    blocks[at].is_empty()
}

/// A block without places.
fn take_fresh(fresh: &mut Vec<Block>) -> Block
    requires some { 0 < vec_len fresh.old }
    requires vacant { list_all has_none fresh.old.items ≡ true }
    ensures vacant { result ≡ [] }
    ensures others { list_all has_none fresh.new.items ≡ true }
    ensures len { vec_len fresh.new + 1 ≡ vec_len fresh.old }
{
    match fresh.pop() {
        Some(block) => block,
        None => unreachable!(),
    }
}

/// Moves the upper part of a full block into another one.
fn part(blocks: &mut Vec<Block>, upper: &mut Block, at: usize)
    requires within { at < length blocks.old.items }
    requires full { 512 ≤ length (slice_index_or blocks.old.items at []) }
    requires vacant { upper.old ≡ [] }
    ensures lower { blocks.new.items ≡ slice_set blocks.old.items at (take 384 (slice_index_or blocks.old.items at [])) }
    ensures upper { upper.new ≡ drop 384 (slice_index_or blocks.old.items at []) }
    ensures size { length (slice_index_or blocks.old.items at []) ≡ 512 }
    ensures capacity { vec_capacity blocks.new ≡ vec_capacity blocks.old }
{
    blocks[at].split(upper);
}

fn insert_behind(blocks: &mut Vec<Block>, block: Block, at: usize)
    requires within { at < length blocks.old.items }
    requires room { vec_len blocks.old < vec_capacity blocks.old }
    ensures items { blocks.new.items ≡ insert blocks.old.items (suc at) block }
    ensures capacity { vec_capacity blocks.old ≤ vec_capacity blocks.new }
{
    if blocks.insert(at + 1, block).is_err() {
        unreachable!();
    }
}

/// Splits a full block, whose upper part goes into a block without places.
fn split(blocks: &mut Vec<Block>, mut upper: Block, at: usize)
    requires within { at < length blocks.old.items }
    requires full { 512 ≤ length (slice_index_or blocks.old.items at []) }
    requires vacant { upper ≡ [] }
    requires room { vec_len blocks.old < vec_capacity blocks.old }
    ensures items { blocks.new.items ≡ parted_at at blocks.old.items }
    ensures size { length (slice_index_or blocks.old.items at []) ≡ 512 }
    ensures capacity { vec_capacity blocks.old ≤ vec_capacity blocks.new }
{
    part(blocks, &mut upper, at);
    insert_behind(blocks, upper, at);
}

/// The first of two blocks, or the second where this one doesn't start behind the row.
fn side(blocks: &[Block], at: usize, table: usize, number: RowNo) -> usize
    requires { at + 1 < length blocks.now }
    ensures { result ≡ (if starts_past table number (slice_index_or blocks.now (suc at) []) then at else suc at) }
{
    if blocks[at + 1].starts_past(table, number) {
        at
    } else {
        at + 1
    }
}

/// Splits the row's block, which is full, and answers its block then.
fn split_home(
    blocks: &mut Vec<Block>,
    fresh: &mut Vec<Block>,
    at: usize,
    table: usize,
    number: RowNo,
) -> usize
    requires home { IsHome table number blocks.old.items at }
    requires order { in_order (joined blocks.old.items) ≡ true }
    requires filled { is_filled blocks.old.items ≡ true }
    requires full { 512 ≤ length (slice_index_or blocks.old.items at []) }
    requires vacant { list_all has_none fresh.old.items ≡ true }
    requires some { 0 < vec_len fresh.old }
    requires fits { vec_len blocks.old + vec_len fresh.old ≤ vec_capacity blocks.old }
    ensures home { IsHome table number blocks.new.items result }
    ensures places { joined blocks.new.items ≡ joined blocks.old.items }
    ensures filled { is_filled blocks.new.items ≡ true }
    ensures room { length (slice_index_or blocks.new.items result []) < 512 }
    ensures vacant { list_all has_none fresh.new.items ≡ true }
    ensures excess { all_excess blocks.new.items + 128 ≤ all_excess blocks.old.items }
    ensures len { vec_len blocks.new ≡ vec_len blocks.old + 1 }
    ensures fresh_len { vec_len fresh.new + 1 ≡ vec_len fresh.old }
    ensures capacity { vec_capacity blocks.old ≤ vec_capacity blocks.new }
{
    let upper = take_fresh(fresh);
    split(blocks, upper, at);
    side(blocks, at, table, number)
}

/// The block of a new row, with room for its place.
fn make_way(blocks: &mut Vec<Block>, fresh: &mut Vec<Block>, table: usize, number: RowNo) -> usize
    requires some { 0 < length blocks.old.items }
    requires order { in_order (joined blocks.old.items) ≡ true }
    requires filled { is_filled blocks.old.items ≡ true }
    requires vacant { list_all has_none fresh.old.items ≡ true }
    requires paid { all_excess blocks.old.items < 128 * vec_len fresh.old }
    requires fits { vec_len blocks.old + vec_len fresh.old ≤ vec_capacity blocks.old }
    ensures home { IsHome table number blocks.new.items result }
    ensures places { joined blocks.new.items ≡ joined blocks.old.items }
    ensures filled { is_filled blocks.new.items ≡ true }
    ensures room { length (slice_index_or blocks.new.items result []) < 512 }
    ensures vacant { list_all has_none fresh.new.items ≡ true }
    ensures paid { all_excess blocks.new.items + 128 * vec_len fresh.old ≤ all_excess blocks.old.items + 128 * vec_len fresh.new }
    ensures fits { vec_len blocks.new + vec_len fresh.new ≤ vec_capacity blocks.new }
{
    let at = home_of(blocks, table, number);
    if is_full_at(blocks, at) {
        split_home(blocks, fresh, at, table, number)
    } else {
        at
    }
}

/// Puts a new row's place where it belongs.
pub(crate) fn put_new(blocks: &mut Vec<Block>, fresh: &mut Vec<Block>, place: Place)
    requires some { 0 < length blocks.old.items }
    requires order { in_order (joined blocks.old.items) ≡ true }
    requires filled { is_filled blocks.old.items ≡ true }
    requires vacant { list_all has_none fresh.old.items ≡ true }
    requires paid { all_excess blocks.old.items < 128 * vec_len fresh.old }
    requires fits { vec_len blocks.old + vec_len fresh.old ≤ vec_capacity blocks.old }
    ensures places { joined blocks.new.items ≡ edited (place_from place.table place.number) (place_at place.table place.number) (joined blocks.old.items) (place ∷ []) }
    ensures some { 0 < length blocks.new.items }
    ensures filled { is_filled blocks.new.items ≡ true }
    ensures vacant { list_all has_none fresh.new.items ≡ true }
    ensures paid { all_excess blocks.new.items + 128 * vec_len fresh.old ≤ all_excess blocks.old.items + 128 * vec_len fresh.new + 1 }
    ensures fits { vec_len blocks.new + vec_len fresh.new ≤ vec_capacity blocks.new }
{
    let at = make_way(blocks, fresh, place.table as usize, place.number);
    put_at(blocks, at, place);
}

/// Takes the block at the index away where it has no place, unless it is the first.
fn drop_empty(blocks: &mut Vec<Block>, at: usize)
    requires within { at < length blocks.old.items }
    requires filled { is_filled_but at blocks.old.items ≡ true }
    ensures front { take at blocks.new.items ≡ take at blocks.old.items }
    ensures back { joined (drop at blocks.new.items) ≡ joined (drop at blocks.old.items) }
    ensures places { joined blocks.new.items ≡ joined blocks.old.items }
    ensures some { 0 < length blocks.new.items }
    ensures filled { is_filled blocks.new.items ≡ true }
    ensures excess { all_excess blocks.new.items ≤ all_excess blocks.old.items }
    ensures len { vec_len blocks.new ≤ vec_len blocks.old }
    ensures capacity { vec_capacity blocks.new ≡ vec_capacity blocks.old }
{
    if at > 0 && is_empty_at(blocks, at) {
        let _gone = blocks.remove(at);
    }
}

/// Takes the row's place out of the block at the index.
fn take_at(blocks: &mut Vec<Block>, at: usize, table: usize, number: RowNo)
    requires home { IsHome table number blocks.old.items at }
    requires order { in_order (joined blocks.old.items) ≡ true }
    requires filled { is_filled blocks.old.items ≡ true }
    ensures places { joined blocks.new.items ≡ edited (place_from table number) (place_at table number) (joined blocks.old.items) [] }
    ensures filled { is_filled_but at blocks.new.items ≡ true }
    ensures excess { all_excess blocks.new.items ≤ all_excess blocks.old.items }
    ensures len { vec_len blocks.new ≡ vec_len blocks.old }
    ensures capacity { vec_capacity blocks.new ≡ vec_capacity blocks.old }
{
    blocks[at].take_out(table, number);
}

/// Takes the row's place away, where there is one.
pub(crate) fn take_from(blocks: &mut Vec<Block>, table: usize, number: RowNo)
    requires some { 0 < length blocks.old.items }
    requires order { in_order (joined blocks.old.items) ≡ true }
    requires filled { is_filled blocks.old.items ≡ true }
    ensures places { joined blocks.new.items ≡ edited (place_from table number) (place_at table number) (joined blocks.old.items) [] }
    ensures some { 0 < length blocks.new.items }
    ensures filled { is_filled blocks.new.items ≡ true }
    ensures excess { all_excess blocks.new.items ≤ all_excess blocks.old.items }
    ensures len { vec_len blocks.new ≤ vec_len blocks.old }
    ensures capacity { vec_capacity blocks.new ≡ vec_capacity blocks.old }
{
    let at = home_of(blocks, table, number);
    take_at(blocks, at, table, number);
    drop_empty(blocks, at);
}

/// Takes the places of a table's rows out of the block at the index.
fn keep_in(blocks: &mut Vec<Block>, at: usize, table: usize)
    requires within { at < length blocks.old.items }
    requires filled { is_filled blocks.old.items ≡ true }
    ensures front { take at blocks.new.items ≡ take at blocks.old.items }
    ensures back { joined (drop at blocks.new.items) ≡ filter (place_elsewhere table) (slice_index_or blocks.old.items at []) ++ joined (drop (suc at) blocks.old.items) }
    ensures filled { is_filled_but at blocks.new.items ≡ true }
    ensures excess { all_excess blocks.new.items ≤ all_excess blocks.old.items }
    ensures len { vec_len blocks.new ≡ vec_len blocks.old }
    ensures capacity { vec_capacity blocks.new ≡ vec_capacity blocks.old }
{
    blocks[at].keep_elsewhere(table);
}

/// Takes the places of a table's rows out of the block at the index, and the block away where it has
/// no place then.
fn keep_at(blocks: &mut Vec<Block>, at: usize, table: usize)
    requires within { at < length blocks.old.items }
    requires filled { is_filled blocks.old.items ≡ true }
    ensures front { take at blocks.new.items ≡ take at blocks.old.items }
    ensures back { joined (drop at blocks.new.items) ≡ filter (place_elsewhere table) (slice_index_or blocks.old.items at []) ++ joined (drop (suc at) blocks.old.items) }
    ensures some { 0 < length blocks.new.items }
    ensures filled { is_filled blocks.new.items ≡ true }
    ensures excess { all_excess blocks.new.items ≤ all_excess blocks.old.items }
    ensures len { vec_len blocks.new ≤ vec_len blocks.old }
    ensures capacity { vec_capacity blocks.new ≡ vec_capacity blocks.old }
{
    keep_in(blocks, at, table);
    drop_empty(blocks, at);
}

/// Takes the places of a table's rows away.
pub(crate) fn keep_elsewhere(blocks: &mut Vec<Block>, table: usize)
    requires some { 0 < length blocks.old.items }
    requires order { in_order (joined blocks.old.items) ≡ true }
    requires filled { is_filled blocks.old.items ≡ true }
    requires next { table + 1 < 2 ^ 64 }
    ensures places { joined blocks.new.items ≡ filter (place_elsewhere table) (joined blocks.old.items) }
    ensures some { 0 < length blocks.new.items }
    ensures filled { is_filled blocks.new.items ≡ true }
    ensures excess { all_excess blocks.new.items ≤ all_excess blocks.old.items }
    ensures len { vec_len blocks.new ≤ vec_len blocks.old }
    ensures capacity { vec_capacity blocks.new ≡ vec_capacity blocks.old }
{
    let first = home_of(blocks, table, RowNo(0));
    let last = home_of(blocks, table + 1, RowNo(0));
    let mut at = last + 1;
    // from the last block on, so that few blocks are moved where one goes
    while at > first {
        at -= 1;
        keep_at(blocks, at, table);
    }
}

/// How many places the blocks have over three quarters of what they hold. `None` where no number
/// tells it.
pub(crate) fn excess_of(blocks: &[Block]) -> Option<usize>
    ensures { IfSome result (λ excess. excess ≡ all_excess blocks.now) }
{
    let mut excess: usize = 0;
    for block in blocks {
        excess = excess.checked_add(block.excess())?;
    }
    Some(excess)
}

/// Makes blocks without places, until there are so many.
fn make_fresh(alloc: Global, fresh: &mut Vec<Block>, count: usize) -> Result<(), Memory>
    requires { list_all has_none fresh.old.items ≡ true }
    ensures ok { OnOk result (count ≤ vec_len fresh.new) }
    ensures vacant { list_all has_none fresh.new.items ≡ true }
    ensures more { vec_len fresh.old ≤ vec_len fresh.new }
    ensures most { vec_len fresh.new ≤ max count (vec_len fresh.old) }
{
    while fresh.len() < count {
        fresh.push(Block::new(alloc)?)?;
    }
    Ok(())
}

/// Sees that there are so many blocks without places, and room for them among the others.
pub(crate) fn prepare(
    blocks: &mut Vec<Block>,
    fresh: &mut Vec<Block>,
    count: usize,
) -> Result<(), Memory>
    requires vacant { list_all has_none fresh.old.items ≡ true }
    requires fits { vec_len blocks.old + vec_len fresh.old ≤ vec_capacity blocks.old }
    ensures ok { OnOk result (count ≤ vec_len fresh.new) }
    ensures blocks { blocks.new.items ≡ blocks.old.items }
    ensures len { vec_len blocks.new ≡ vec_len blocks.old }
    ensures vacant { list_all has_none fresh.new.items ≡ true }
    ensures more { vec_len fresh.old ≤ vec_len fresh.new }
    ensures fits { vec_len blocks.new + vec_len fresh.new ≤ vec_capacity blocks.new }
{
    blocks.reserve(count)?;
    make_fresh(*blocks.allocator(), fresh, count)
}

/// How many blocks without places it takes to make room for so many new rows.
pub(crate) fn blocks_for(blocks: &[Block], room: usize) -> Result<usize, Memory>
    ensures { IfOk result (λ count. room + all_excess blocks.now ≤ 128 * count) }
{
    let Some(excess) = excess_of(blocks) else {
        return Err(Memory);
    };
    match room.checked_add(excess) {
        Some(places) => Ok(places / MOVED + 1),
        None => Err(Memory),
    }
}

/// The largest row number of a table that has places.
pub(crate) fn largest_in(blocks: &[Block], table: usize) -> u32
    requires some { 0 < length blocks.now }
    requires order { in_order (joined blocks.now) ≡ true }
    requires filled { is_filled blocks.now ≡ true }
    requires numbered { list_all place_numbered (joined blocks.now) ≡ true }
    requires next { table + 1 < 2 ^ 64 }
    requires there { 0 < count_by (place_of table) (joined blocks.now) }
    ensures { result ≡ largest_in table (joined blocks.now) }
{
    let at = home_of(blocks, table + 1, RowNo(0));
    let block = blocks[at].places();
    let end = index_of(block, table + 1, RowNo(0));
    block[end - 1].number.0
}
