//! What is found by the index of keys.
ghost use Rattle.std.specs.Prelude.{◌≡◌, ◌↔◌, ℕ, IfNone, IfSome, IsTrue, None, Some, nat_eq, slice_index_or, true};
ghost use Rattle.indexmap.specs.IndexMap.{get};
ghost use Rattle.au_rows.specs.declared.version.Version.{Version as Content};
ghost use Rattle.au_rows.specs.Chains.{Chained, versions_of};
ghost use Rattle.au_rows.specs.Hash.{key_hash};
ghost use Rattle.au_rows.specs.Order.{in_order};
ghost use Rattle.au_rows.specs.Sought.{IsMatch, is_sought, slot_seen};

use crate::chains::{head_of, is_slot};
use crate::hash::key_hash;
use crate::keys::{Asked, has_key};
use crate::place::Place;
use crate::places::Places;
use crate::slots::Slots;
use crate::sought::Sought;
use crate::version::Version;
use au_base::ClientNo;
use indexmap::IndexMap;

/// The slot of what the client sees of the place's row.
fn slot_seen(place: Place, by: ClientNo) -> Option<u32>
    ensures { result ≡ slot_seen by place }
{
    if place.is_by(by) {
        place.newest
    } else {
        place.settled
    }
}

fn is_sought(place: Option<Place>, slot: u32, by: ClientNo, sought: Sought) -> bool
    ensures { result ≡ is_sought sought by slot place }
{
    match place {
        Some(place) => match sought {
            Sought::Seen => is_slot(slot_seen(place, by), slot),
            Sought::Other(row) => { is_slot(slot_seen(place, by), slot) && place.number.0 != row.0 }
            Sought::Locked => place.owner.is_some() && !place.is_by(by),
        },
        None => false,
    }
}

/// Whether the version of the slot is one that is sought.
fn is_match(
    places: &Places,
    slot: u32,
    version: &Version,
    asked: &Asked<'_>,
    sought: Sought,
) -> bool
    requires { in_order places.now.listed ≡ true }
    ensures { IsTrue result ↔ IsMatch sought places.now.listed asked.now.table asked.now.places.now asked.now.key.now asked.now.by slot version.now }
{
    if version.table as usize != asked.table {
        return false;
    }
    if !has_key(asked.places, asked.key, version.cells.as_slice()) {
        return false;
    }
    let place = places.find(version.table as usize, version.number);
    is_sought(place, slot, asked.by, sought)
}

/// The slot of a version that is sought, among those with the number of the key.
pub(crate) fn first_match(
    nodes: &Slots,
    heads: &IndexMap<u64, u32>,
    places: &Places,
    asked: &Asked<'_>,
    sought: Sought,
) -> Option<u32>
    requires chained { Chained nodes.now.slots (λ hash. get nat_eq heads.now hash) }
    requires order { in_order places.now.listed ≡ true }
    ensures some { IfSome result (λ slot. (version : Content) × (slice_index_or (versions_of nodes.now.slots) slot None ≡ Some version) × IsMatch sought places.now.listed asked.now.table asked.now.places.now asked.now.key.now asked.now.by slot version) }
    ensures none { IfNone result ((slot : ℕ) (version : Content) → slice_index_or (versions_of nodes.now.slots) slot None ≡ Some version → version.hash ≡ key_hash asked.now.table asked.now.key.now → IsMatch sought places.now.listed asked.now.table asked.now.places.now asked.now.key.now asked.now.by slot version → ⊥) }
{
    let hash = key_hash(asked.table, asked.key);
    let mut at = head_of(heads, hash);
    // no chain has more slots than there are
    for _turn in 0..nodes.len() {
        match at {
            Some(here) => match nodes.get(here) {
                Some(node) => {
                    if is_match(places, here, &node.version, asked, sought) {
                        return Some(here);
                    }
                    at = node.below;
                }
                None => return None,
            },
            None => return None,
        }
    }
    None
}
