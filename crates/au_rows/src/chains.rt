//! Chains of versions, one for each hash.
ghost use Rattle.std.specs.Prelude.{◌≡◌, ℕ, ◌+◌, ◌<◌, ◌≤◌, IfNone, IfSome, IsSome, List, None, Option, Some, cond, nat_eq, slice_index_or};
ghost use Rattle.indexmap.specs.IndexMap.{get, spare};
ghost use Rattle.au_rows.specs.declared.node.Node.{Node as Link};
ghost use Rattle.au_rows.specs.declared.version.Version.{Version as Content};
ghost use Rattle.au_rows.specs.Chains.{Chained, Empties, is_slot, version_of, versions_of};
ghost use Rattle.au_rows.specs.Stored.{Frees, Puts};

use crate::node::Node;
use crate::slots::Slots;
use crate::version::Version;
use indexmap::IndexMap;

/// The slot at the head of a hash's chain.
pub(crate) fn head_of(heads: &IndexMap<u64, u32>, hash: u64) -> Option<u32>
    ensures { result ≡ get nat_eq heads.now hash }
{
    match heads.get(&hash) {
        Some(slot) => Some(*slot),
        None => None,
    }
}

/// Makes a slot the head of a chain. It takes no memory.
fn add_head(heads: &mut IndexMap<u64, u32>, hash: u64, slot: u32)
    requires { 0 < spare heads.old }
    ensures heads { (other : ℕ) → get nat_eq heads.new other ≡ cond (nat_eq hash other) (Some slot) (get nat_eq heads.old other) }
    ensures spare { spare heads.old ≤ spare heads.new + 1 }
{
    if heads.insert(hash, slot).is_err() {
        unreachable!();
    }
}

/// Takes a version in at the head of its chain, and answers its slot. It takes no memory.
pub(crate) fn link(nodes: &mut Slots, heads: &mut IndexMap<u64, u32>, version: Version) -> u32
    requires room { 0 < nodes.old.room }
    requires spare { 0 < spare heads.old }
    requires chained { Chained nodes.old.slots (λ hash. get nat_eq heads.old hash) }
    ensures chained { Chained nodes.new.slots (λ hash. get nat_eq heads.new hash) }
    ensures puts { Puts (versions_of nodes.old.slots) (versions_of nodes.new.slots) result version }
    ensures room { nodes.old.room ≡ nodes.new.room + 1 }
    ensures spare { spare heads.old ≤ spare heads.new + 1 }
{
    let hash = version.hash;
    let below = head_of(heads, hash);
    let slot = nodes.insert(Node { version, below });
    add_head(heads, hash, slot);
    slot
}

/// The slot of the node with the hash that names the slot as the one below it.
fn link_above(nodes: &Slots, heads: &IndexMap<u64, u32>, hash: u64, slot: u32) -> Option<u32>
    requires { Chained nodes.now.slots (λ hash. get nat_eq heads.now hash) }
    ensures some { IfSome result (λ above. (node : Link) × (slice_index_or nodes.now.slots above None ≡ Some node) × (node.version.hash ≡ hash) × (node.below ≡ Some slot)) }
    ensures none { IfNone result ((above : ℕ) (node : Link) → slice_index_or nodes.now.slots above None ≡ Some node → node.version.hash ≡ hash → node.below ≡ Some slot → ⊥) }
{
    let mut at = head_of(heads, hash);
    // no chain has more slots than there are
    for _turn in 0..nodes.len() {
        match at {
            Some(here) => match nodes.get(here) {
                Some(node) => {
                    if is_slot(node.below, slot) {
                        return Some(here);
                    }
                    at = node.below;
                }
                None => return None,
            },
            None => return None,
        }
    }
    None
}

/// Whether it is this slot.
pub(crate) fn is_slot(named: Option<u32>, slot: u32) -> bool
    ensures { result ≡ is_slot slot named }
{
    match named {
        Some(named) => named == slot,
        None => false,
    }
}

/// Makes another slot the head of a chain that is there.
fn set_head(heads: &mut IndexMap<u64, u32>, hash: u64, slot: u32)
    requires { IsSome (get nat_eq heads.old hash) }
    ensures heads { (other : ℕ) → get nat_eq heads.new other ≡ cond (nat_eq hash other) (Some slot) (get nat_eq heads.old other) }
    ensures spare { spare heads.old ≤ spare heads.new }
{
    if let Some(head) = heads.get_mut(&hash) {
        *head = slot;
    }
}

/// Lets the node that is below the head be the head. A chain of which nothing is left has no head.
fn lower_head(heads: &mut IndexMap<u64, u32>, hash: u64, below: Option<u32>)
    requires { IsSome (get nat_eq heads.old hash) }
    ensures heads { (other : ℕ) → get nat_eq heads.new other ≡ cond (nat_eq hash other) below (get nat_eq heads.old other) }
    ensures spare { spare heads.old ≤ spare heads.new }
{
    match below {
        Some(slot) => set_head(heads, hash, slot),
        None => {
            let _gone = heads.swap_remove(&hash);
        }
    }
}

/// Lets the nodes of the slot's chain pass it by.
fn bypass(
    nodes: &mut Slots,
    heads: &mut IndexMap<u64, u32>,
    hash: u64,
    slot: u32,
    below: Option<u32>,
)
    requires chained { Chained nodes.old.slots (λ hash. get nat_eq heads.old hash) }
    requires node { (version : Content) × (version.hash ≡ hash) × (slice_index_or nodes.old.slots slot None ≡ Some (record { version = version; below = below })) }
    ensures chained { (last : List (Option Link)) → Empties nodes.new.slots last slot → Chained last (λ hash. get nat_eq heads.new hash) }
    ensures versions { (other : ℕ) → version_of (slice_index_or nodes.new.slots other None) ≡ version_of (slice_index_or nodes.old.slots other None) }
    ensures room { nodes.new.room ≡ nodes.old.room }
    ensures spare { spare heads.old ≤ spare heads.new }
{
    if is_slot(head_of(heads, hash), slot) {
        lower_head(heads, hash, below);
    } else if let Some(above) = link_above(nodes, heads, hash, slot) {
        nodes.set_below(above, below);
    }
}

/// The hash of a slot's version, and the slot below it.
fn link_of(nodes: &Slots, slot: u32) -> Option<(u64, Option<u32>)>
    ensures some { IfSome result (λ link. (version : Content) × (version.hash ≡ link.0) × (slice_index_or nodes.now.slots slot None ≡ Some (record { version = version; below = link.1 }))) }
    ensures none { IfNone result (slice_index_or nodes.now.slots slot None ≡ None) }
{
    match nodes.get(slot) {
        Some(node) => Some((node.version.hash, node.below)),
        None => None,
    }
}

/// Lets the version of a slot go, where there is one.
pub(crate) fn unlink(nodes: &mut Slots, heads: &mut IndexMap<u64, u32>, slot: u32)
    requires { Chained nodes.old.slots (λ hash. get nat_eq heads.old hash) }
    ensures chained { Chained nodes.new.slots (λ hash. get nat_eq heads.new hash) }
    ensures frees { Frees (versions_of nodes.old.slots) (versions_of nodes.new.slots) (Some slot) }
    ensures room { nodes.old.room ≤ nodes.new.room }
    ensures spare { spare heads.old ≤ spare heads.new }
{
    if let Some((hash, below)) = link_of(nodes, slot) {
        bypass(nodes, heads, hash, slot, below);
        nodes.take_out(slot);
    }
}
