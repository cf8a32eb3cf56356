//! Changes of open transactions in the order in which they were made, those of one lane in a chain.
//! A client's lane goes by its number: clients numbered one after another have lanes of their own.
ghost use Rattle.std.specs.Prelude.{◌≡◌, ℕ, ◌+◌, ◌<◌, ◌≤◌, ◌^◌, ◌++◌, ◌∷◌, [], IfNone, IfOk, IfSome, IsSome, IsTrue, None, OnOk, Option, Some, cond, false, filter, is_some, length, min, nat_eq, slice_index_or, slice_set, true, vec_len, vec_capacity};
ghost use Rattle.std.specs.List.{list_any};
ghost use Rattle.au_rows.specs.declared.entry.Entry.{Entry as Kept};
ghost use Rattle.au_rows.specs.Ends.{is_own};
ghost use Rattle.au_rows.specs.Links.{Above, Linked, Taken, below_in, is_own_entry, lane_in, live};

use crate::entry::Entry;
use crate::unsettled::Unsettled;
use au_base::{ClientNo, Memory};
use std::alloc::Global;

/// How many lanes there are.
const LANES: u32 = 4096;

/// How many entries there are at most.
const MOST: usize = 1 << 32;

/// The client's lane.
fn lane_of(by: ClientNo) -> usize
    ensures lane { result ≡ lane_in by }
    ensures within { result < 4096 }
{
    (by.0 % LANES) as usize
}

/// A place for the newest change of each lane.
pub(crate) fn no_tops(alloc: Global) -> Result<Vec<Option<u32>>, Memory>
    ensures len { IfOk result (λ tops. vec_len tops ≡ 4096) }
    ensures none { IfOk result (λ tops. (lane : ℕ) → slice_index_or tops.items lane None ≡ None) }
{
    let tops = vec![in alloc; None; 4096]?;
    Ok(tops)
}

/// Where the lane's newest change is kept.
fn top_of(tops: &[Option<u32>], lane: usize) -> Option<u32>
    requires { lane < length tops.now }
    ensures { result ≡ slice_index_or tops.now lane None }
{
    tops[lane]
}

/// Names another change of a lane as the newest, or none.
fn set_top(tops: &mut Vec<Option<u32>>, lane: usize, top: Option<u32>)
    requires { lane < vec_len tops.old }
    ensures items { tops.new.items ≡ slice_set tops.old.items lane top }
    ensures len { vec_len tops.new ≡ vec_len tops.old }
{
    tops[lane] = top;
}

/// Names no change as the newest of any lane.
fn clear(tops: &mut Vec<Option<u32>>)
    ensures none { (lane : ℕ) → slice_index_or tops.new.items lane None ≡ None }
    ensures len { vec_len tops.new ≡ vec_len tops.old }
{
    for lane in 0..tops.len() {
        tops[lane] = None;
    }
}

/// Lets the entry at the index, where there is one, name its lane's entry before it.
fn link(entries: &mut Vec<Option<Entry>>, tops: &mut Vec<Option<u32>>, at: usize)
    requires within { at < vec_len entries.old }
    requires few { vec_len entries.old ≤ 2 ^ 32 }
    requires lanes { vec_len tops.old ≡ 4096 }
    requires linked { Linked entries.old.items (λ lane. slice_index_or tops.old.items lane None) at }
    ensures linked { Linked entries.new.items (λ lane. slice_index_or tops.new.items lane None) (at + 1) }
    ensures live { live entries.new.items ≡ live entries.old.items }
    ensures len { vec_len entries.new ≡ vec_len entries.old }
    ensures capacity { vec_capacity entries.new ≡ vec_capacity entries.old }
    ensures lanes { vec_len tops.new ≡ 4096 }
{
    if let Some(entry) = entries[at] {
        let lane = lane_of(entry.change.by);
        let below = top_of(tops, lane);
        entries[at] = Some(Entry {
            change: entry.change,
            below,
        });
        set_top(tops, lane, Some(at as u32));
    }
}

/// Lets each entry name its lane's entry before it.
fn link_all(entries: &mut Vec<Option<Entry>>, tops: &mut Vec<Option<u32>>)
    requires none { (lane : ℕ) → slice_index_or tops.old.items lane None ≡ None }
    requires few { vec_len entries.old ≤ 2 ^ 32 }
    requires lanes { vec_len tops.old ≡ 4096 }
    ensures linked { Linked entries.new.items (λ lane. slice_index_or tops.new.items lane None) (vec_len entries.new) }
    ensures live { live entries.new.items ≡ live entries.old.items }
    ensures len { vec_len entries.new ≡ vec_len entries.old }
    ensures capacity { vec_capacity entries.new ≡ vec_capacity entries.old }
    ensures lanes { vec_len tops.new ≡ 4096 }
{
    for at in 0..entries.len() {
        link(entries, tops, at);
    }
}

fn drop_vacant(entries: &mut Vec<Option<Entry>>)
    ensures items { entries.new.items ≡ filter is_some entries.old.items }
    ensures len { vec_len entries.new ≤ vec_len entries.old }
    ensures capacity { vec_capacity entries.new ≡ vec_capacity entries.old }
{
    entries.retain(|entry| entry.is_some());
}

/// Moves the entries together, so that no vacant place is left.
pub(crate) fn compact(entries: &mut Vec<Option<Entry>>, tops: &mut Vec<Option<u32>>)
    requires few { vec_len entries.old ≤ 2 ^ 32 }
    requires lanes { vec_len tops.old ≡ 4096 }
    ensures linked { Linked entries.new.items (λ lane. slice_index_or tops.new.items lane None) (vec_len entries.new) }
    ensures live { live entries.new.items ≡ live entries.old.items }
    ensures len { vec_len entries.new ≡ length (live entries.old.items) }
    ensures few { vec_len entries.new ≤ vec_len entries.old }
    ensures capacity { vec_capacity entries.new ≡ vec_capacity entries.old }
    ensures lanes { vec_len tops.new ≡ 4096 }
{
    drop_vacant(entries);
    clear(tops);
    link_all(entries, tops);
}

/// Makes a place vacant at the end, where there are fewer changes than room for them. It takes no
/// memory.
pub(crate) fn make_way(entries: &mut Vec<Option<Entry>>, tops: &mut Vec<Option<u32>>)
    requires few { vec_len entries.old ≤ 2 ^ 32 }
    requires lanes { vec_len tops.old ≡ 4096 }
    requires linked { Linked entries.old.items (λ lane. slice_index_or tops.old.items lane None) (vec_len entries.old) }
    requires room { length (live entries.old.items) < min (vec_capacity entries.old) (2 ^ 32) }
    ensures linked { Linked entries.new.items (λ lane. slice_index_or tops.new.items lane None) (vec_len entries.new) }
    ensures live { live entries.new.items ≡ live entries.old.items }
    ensures room { vec_len entries.new < min (vec_capacity entries.new) (2 ^ 32) }
    ensures capacity { vec_capacity entries.new ≡ vec_capacity entries.old }
    ensures lanes { vec_len tops.new ≡ 4096 }
{
    if entries.len() == entries.capacity().min(MOST) {
        compact(entries, tops);
    }
}

/// Takes a change in, behind all others. It takes no memory.
pub(crate) fn add(entries: &mut Vec<Option<Entry>>, tops: &mut Vec<Option<u32>>, change: Unsettled)
    requires lanes { vec_len tops.old ≡ 4096 }
    requires linked { Linked entries.old.items (λ lane. slice_index_or tops.old.items lane None) (vec_len entries.old) }
    requires room { vec_len entries.old < min (vec_capacity entries.old) (2 ^ 32) }
    ensures linked { Linked entries.new.items (λ lane. slice_index_or tops.new.items lane None) (vec_len entries.new) }
    ensures live { live entries.new.items ≡ live entries.old.items ++ change ∷ [] }
    ensures len { vec_len entries.new ≡ vec_len entries.old + 1 }
    ensures capacity { vec_capacity entries.new ≡ vec_capacity entries.old }
    ensures lanes { vec_len tops.new ≡ 4096 }
{
    let at = entries.len();
    entries.push_reserved(Some(Entry {
        change,
        below: None,
    }));
    link(entries, tops, at);
}

/// Takes the entry at the index out, which is the client's and its lane's newest.
fn take_top(
    entries: &mut Vec<Option<Entry>>,
    tops: &mut Vec<Option<u32>>,
    by: ClientNo,
    at: usize,
) -> Option<Unsettled>
    requires lanes { vec_len tops.old ≡ 4096 }
    requires linked { Linked entries.old.items (λ lane. slice_index_or tops.old.items lane None) (vec_len entries.old) }
    requires top { slice_index_or tops.old.items (lane_in by) None ≡ Some at }
    requires own { is_own_entry by (slice_index_or entries.old.items at None) ≡ true }
    ensures linked { Linked entries.new.items (λ lane. slice_index_or tops.new.items lane None) (vec_len entries.new) }
    ensures taken { IfSome result (λ change. Taken by change (live entries.old.items) (live entries.new.items)) }
    ensures some { IsSome result }
    ensures len { vec_len entries.new ≡ vec_len entries.old }
    ensures capacity { vec_capacity entries.new ≡ vec_capacity entries.old }
    ensures lanes { vec_len tops.new ≡ 4096 }
{
    match entries[at] {
        Some(entry) => {
            entries[at] = None;
            set_top(tops, lane_of(by), entry.below);
            Some(entry.change)
        }
        None => None,
    }
}

/// Whether the entry at the index is the client's.
fn is_own_at(entries: &[Option<Entry>], at: usize, by: ClientNo) -> bool
    requires { at < length entries.now }
    ensures { result ≡ is_own_entry by (slice_index_or entries.now at None) }
{
    match entries[at] {
        Some(entry) => entry.change.by.0 == by.0,
        None => false,
    }
}

/// Where the entry below the one at the index is kept.
fn below_of(entries: &[Option<Entry>], at: usize) -> Option<u32>
    requires { at < length entries.now }
    ensures { result ≡ below_in (slice_index_or entries.now at None) }
{
    match entries[at] {
        Some(entry) => entry.below,
        None => None,
    }
}

/// The entry above the client's newest one in its lane, whose newest is another client's.
fn find_above(entries: &[Option<Entry>], by: ClientNo, top: usize) -> Option<usize>
    requires linked { (tops : ℕ → Option ℕ) × Linked entries.now tops (length entries.now) × (tops (lane_in by) ≡ Some top) }
    requires other { is_own_entry by (slice_index_or entries.now top None) ≡ false }
    ensures some { IfSome result (λ above. Above by entries.now above) }
    ensures none { IfNone result ((at : ℕ) (entry : Kept) → slice_index_or entries.now at None ≡ Some entry → is_own by entry.change ≡ false) }
{
    let mut above = top;
    // each is below the one before it
    for _turn in 0..entries.len() {
        match below_of(entries, above) {
            Some(here) => {
                if is_own_at(entries, here as usize, by) {
                    return Some(above);
                }
                above = here as usize;
            }
            None => return None,
        }
    }
    None
}

/// Lets the entry of the upper index name what the one of the lower index names, which goes.
fn pass_by(entries: &mut Vec<Option<Entry>>, above: usize, upper: Entry, here: usize, lower: Entry)
    requires above { above < vec_len entries.old }
    requires here { here < vec_len entries.old }
    ensures items { entries.new.items ≡ slice_set (slice_set entries.old.items above (Some (record { change = upper.change; below = lower.below }))) here None }
    ensures len { vec_len entries.new ≡ vec_len entries.old }
    ensures capacity { vec_capacity entries.new ≡ vec_capacity entries.old }
{
    entries[above] = Some(Entry {
        change: upper.change,
        below: lower.below,
    });
    entries[here] = None;
}

fn entry_at(entries: &[Option<Entry>], at: usize) -> Option<Entry>
    requires { at < length entries.now }
    ensures { result ≡ slice_index_or entries.now at None }
{
    entries[at]
}

/// Takes the entry out that another one of its lane names.
fn take_named(
    entries: &mut Vec<Option<Entry>>,
    by: ClientNo,
    above: usize,
    upper: Entry,
    here: usize,
) -> Option<Unsettled>
    requires linked { (tops : ℕ → Option ℕ) × Linked entries.old.items tops (vec_len entries.old) }
    requires there { slice_index_or entries.old.items above None ≡ Some upper }
    requires names { upper.below ≡ Some here }
    requires own { is_own_entry by (slice_index_or entries.old.items here None) ≡ true }
    ensures linked { (tops : ℕ → Option ℕ) → Linked entries.old.items tops (vec_len entries.old) → Linked entries.new.items tops (vec_len entries.new) }
    ensures taken { IfSome result (λ change. Taken by change (live entries.old.items) (live entries.new.items)) }
    ensures some { IsSome result }
    ensures len { vec_len entries.new ≡ vec_len entries.old }
    ensures capacity { vec_capacity entries.new ≡ vec_capacity entries.old }
{
    match entry_at(entries, here) {
        Some(lower) => {
            pass_by(entries, above, upper, here, lower);
            Some(lower.change)
        }
        None => None,
    }
}

/// Takes the entry below the one at the index out of its lane.
fn take_below(entries: &mut Vec<Option<Entry>>, by: ClientNo, above: usize) -> Option<Unsettled>
    requires linked { (tops : ℕ → Option ℕ) × Linked entries.old.items tops (vec_len entries.old) }
    requires there { Above by entries.old.items above }
    ensures linked { (tops : ℕ → Option ℕ) → Linked entries.old.items tops (vec_len entries.old) → Linked entries.new.items tops (vec_len entries.new) }
    ensures taken { IfSome result (λ change. Taken by change (live entries.old.items) (live entries.new.items)) }
    ensures some { IsSome result }
    ensures len { vec_len entries.new ≡ vec_len entries.old }
    ensures capacity { vec_capacity entries.new ≡ vec_capacity entries.old }
{
    match entry_at(entries, above) {
        Some(upper) => match upper.below {
            Some(here) => take_named(entries, by, above, upper, here as usize),
            None => None,
        },
        None => None,
    }
}

/// Takes the client's newest change out of its lane, whose newest is at the index.
fn take_from(
    entries: &mut Vec<Option<Entry>>,
    tops: &mut Vec<Option<u32>>,
    by: ClientNo,
    top: usize,
) -> Option<Unsettled>
    requires lanes { vec_len tops.old ≡ 4096 }
    requires linked { Linked entries.old.items (λ lane. slice_index_or tops.old.items lane None) (vec_len entries.old) }
    requires top { slice_index_or tops.old.items (lane_in by) None ≡ Some top }
    ensures linked { Linked entries.new.items (λ lane. slice_index_or tops.new.items lane None) (vec_len entries.new) }
    ensures taken { IfSome result (λ change. Taken by change (live entries.old.items) (live entries.new.items)) }
    ensures none { IfNone result (list_any (is_own by) (live entries.old.items) ≡ false) }
    ensures same { IfNone result (live entries.new.items ≡ live entries.old.items) }
    ensures len { vec_len entries.new ≡ vec_len entries.old }
    ensures capacity { vec_capacity entries.new ≡ vec_capacity entries.old }
    ensures lanes { vec_len tops.new ≡ 4096 }
{
    if is_own_at(entries, top, by) {
        return take_top(entries, tops, by, top);
    }
    match find_above(entries, by, top) {
        Some(above) => take_below(entries, by, above),
        None => None,
    }
}

/// Takes the last place away where it is vacant, and answers whether it was.
fn drop_last(entries: &mut Vec<Option<Entry>>) -> bool
    ensures gone { IsTrue result → entries.old.items ≡ entries.new.items ++ None ∷ [] }
    ensures kept { result ≡ false → entries.new.items ≡ entries.old.items }
    ensures len { vec_len entries.new ≤ vec_len entries.old }
    ensures capacity { vec_capacity entries.new ≡ vec_capacity entries.old }
{
    match entries.pop() {
        Some(Some(entry)) => {
            entries.push_reserved(Some(entry));
            false
        }
        Some(None) => true,
        None => false,
    }
}

/// Takes the vacant places behind all changes away.
fn trim(entries: &mut Vec<Option<Entry>>)
    ensures linked { (tops : ℕ → Option ℕ) → Linked entries.old.items tops (vec_len entries.old) → Linked entries.new.items tops (vec_len entries.new) }
    ensures live { live entries.new.items ≡ live entries.old.items }
    ensures len { vec_len entries.new ≤ vec_len entries.old }
    ensures capacity { vec_capacity entries.new ≡ vec_capacity entries.old }
{
    for _turn in 0..entries.len() {
        if !drop_last(entries) {
            return;
        }
    }
}

/// Takes the client's newest change out of its lane, and the vacant places behind all changes away.
fn take_and_trim(
    entries: &mut Vec<Option<Entry>>,
    tops: &mut Vec<Option<u32>>,
    by: ClientNo,
    top: usize,
) -> Option<Unsettled>
    requires lanes { vec_len tops.old ≡ 4096 }
    requires linked { Linked entries.old.items (λ lane. slice_index_or tops.old.items lane None) (vec_len entries.old) }
    requires top { slice_index_or tops.old.items (lane_in by) None ≡ Some top }
    ensures linked { Linked entries.new.items (λ lane. slice_index_or tops.new.items lane None) (vec_len entries.new) }
    ensures taken { IfSome result (λ change. Taken by change (live entries.old.items) (live entries.new.items)) }
    ensures none { IfNone result (list_any (is_own by) (live entries.old.items) ≡ false) }
    ensures same { IfNone result (live entries.new.items ≡ live entries.old.items) }
    ensures len { vec_len entries.new ≤ vec_len entries.old }
    ensures capacity { vec_capacity entries.new ≡ vec_capacity entries.old }
    ensures lanes { vec_len tops.new ≡ 4096 }
{
    let taken = take_from(entries, tops, by, top);
    trim(entries);
    taken
}

/// Takes the client's newest change out. `None` exactly where it has none.
pub(crate) fn take_newest(
    entries: &mut Vec<Option<Entry>>,
    tops: &mut Vec<Option<u32>>,
    by: ClientNo,
) -> Option<Unsettled>
    requires lanes { vec_len tops.old ≡ 4096 }
    requires linked { Linked entries.old.items (λ lane. slice_index_or tops.old.items lane None) (vec_len entries.old) }
    ensures linked { Linked entries.new.items (λ lane. slice_index_or tops.new.items lane None) (vec_len entries.new) }
    ensures taken { IfSome result (λ change. Taken by change (live entries.old.items) (live entries.new.items)) }
    ensures none { IfNone result (list_any (is_own by) (live entries.old.items) ≡ false) }
    ensures same { IfNone result (live entries.new.items ≡ live entries.old.items) }
    ensures len { vec_len entries.new ≤ vec_len entries.old }
    ensures capacity { vec_capacity entries.new ≡ vec_capacity entries.old }
    ensures lanes { vec_len tops.new ≡ 4096 }
{
    match top_of(tops, lane_of(by)) {
        Some(top) => take_and_trim(entries, tops, by, top as usize),
        None => None,
    }
}

fn has_room(entries: &Vec<Option<Entry>>, more: usize) -> bool
    ensures { IsTrue result → vec_len entries.now + more ≤ min (vec_capacity entries.now) (2 ^ 32) }
{
    match entries.len().checked_add(more) {
        Some(all) => all <= entries.capacity().min(MOST),
        None => false,
    }
}

/// How many more places to ask for: a quarter more than are needed, so that entries are seldom moved
/// together.
fn wanted(len: usize, more: usize) -> Result<usize, Memory>
    ensures { IfOk result (λ places. more ≤ places) }
{
    let Some(all) = len.checked_add(more) else {
        return Err(Memory);
    };
    more.checked_add(all / 4).ok_or(Memory)
}

/// Makes room for so many more changes, by new memory.
fn grow(
    entries: &mut Vec<Option<Entry>>,
    tops: &mut Vec<Option<u32>>,
    more: usize,
) -> Result<(), Memory>
    requires few { vec_len entries.old ≤ 2 ^ 32 }
    requires lanes { vec_len tops.old ≡ 4096 }
    ensures ok { OnOk result (length (live entries.new.items) + more ≤ min (vec_capacity entries.new) (2 ^ 32)) }
    ensures linked { Linked entries.new.items (λ lane. slice_index_or tops.new.items lane None) (vec_len entries.new) }
    ensures live { live entries.new.items ≡ live entries.old.items }
    ensures few { vec_len entries.new ≤ 2 ^ 32 }
    ensures capacity { vec_capacity entries.old ≤ vec_capacity entries.new }
    ensures lanes { vec_len tops.new ≡ 4096 }
{
    compact(entries, tops);
    if MOST - entries.len() < more {
        return Err(Memory);
    }
    let places = wanted(entries.len(), more)?;
    entries.reserve_exact(places)?;
    Ok(())
}

/// Makes room for so many more changes.
pub(crate) fn make_room(
    entries: &mut Vec<Option<Entry>>,
    tops: &mut Vec<Option<u32>>,
    more: usize,
) -> Result<(), Memory>
    requires few { vec_len entries.old ≤ 2 ^ 32 }
    requires lanes { vec_len tops.old ≡ 4096 }
    requires linked { Linked entries.old.items (λ lane. slice_index_or tops.old.items lane None) (vec_len entries.old) }
    ensures ok { OnOk result (length (live entries.new.items) + more ≤ min (vec_capacity entries.new) (2 ^ 32)) }
    ensures linked { Linked entries.new.items (λ lane. slice_index_or tops.new.items lane None) (vec_len entries.new) }
    ensures live { live entries.new.items ≡ live entries.old.items }
    ensures few { vec_len entries.new ≤ 2 ^ 32 }
    ensures capacity { vec_capacity entries.old ≤ vec_capacity entries.new }
    ensures lanes { vec_len tops.new ≡ 4096 }
{
    if has_room(entries, more) {
        return Ok(());
    }
    grow(entries, tops, more)
}
