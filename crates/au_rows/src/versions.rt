//! The versions of all rows, and the index of their keys.
ghost use Rattle.std.specs.Prelude.{◌≡◌, ◌+◌, ◌<◌, ◌≤◌, [], ℕ, Some, None, OnOk, IfNone, IfSome, slice_index_or, true};
ghost use Rattle.std.specs.Option.{option_copied};
ghost use Rattle.au_rows.specs.declared.version.Version.{Version as Content};
ghost use Rattle.au_rows.specs.Hash.{key_hash};
ghost use Rattle.au_rows.specs.Order.{in_order};
ghost use Rattle.au_rows.specs.Sought.{IsMatch};
ghost use Rattle.au_rows.specs.Stored.{Frees, Puts};

use crate::chains::{link, unlink};
use crate::keys::Asked;
use crate::places::Places;
use crate::seeking::first_match;
use crate::slots::Slots;
use crate::sought::Sought;
use crate::version::Version;
use au_base::Memory;
use indexmap::IndexMap;
use std::alloc::Global;
use std::marker::Model;

/// The versions of all rows, each under a slot that it gives out. Contracts see the slots, and how
/// many more versions it takes without memory.
#[derive(Drop)]
pub struct Versions {
    nodes: Slots,
    /// The first slot of each hash's chain.
    heads: IndexMap<u64, u32>,
}

impl Model for Versions {
    ghost use Rattle.au_rows.specs.Stored.{Stored};

    ghost Value = { Stored };

    ghost use Rattle.std.specs.Prelude.{min, nat_eq};
    ghost use Rattle.indexmap.specs.IndexMap.{get, spare};
    ghost use Rattle.au_rows.specs.Chains.{Chained, versions_of};

    ghost view = { λ v. record { slots = versions_of v.nodes.slots; room = min v.nodes.room (spare v.heads) } };

    ghost invariant = { λ v. Chained v.nodes.slots (λ hash. get nat_eq v.heads hash) };
}

impl Versions {
    /// No version, and no room.
    pub(crate) fn new(alloc: Global) -> Self
        ensures slots { result.slots ≡ [] }
        ensures room { result.room ≡ 0 }
    {
        Versions {
            nodes: Slots::new(alloc),
            heads: IndexMap::new(alloc),
        }
    }

    /// Makes room for so many more versions.
    pub(crate) fn reserve(&mut self, more: usize) -> Result<(), Memory>
        ensures ok { OnOk result (more ≤ self.new.room) }
        ensures slots { self.new.slots ≡ self.old.slots }
        ensures room { self.old.room ≤ self.new.room }
    {
        self.nodes.reserve(more)?;
        self.heads.reserve(more)?;
        Ok(())
    }

    /// Takes a version in, and answers its slot. It takes no memory.
    pub(crate) fn insert(&mut self, version: Version) -> u32
        requires { 0 < self.old.room }
        ensures puts { Puts self.old.slots self.new.slots result version }
        ensures room { self.old.room ≤ self.new.room + 1 }
    {
        link(&mut self.nodes, &mut self.heads, version)
    }

    /// Lets the version of a slot go, where there is one.
    pub(crate) fn free(&mut self, slot: Option<u32>)
        ensures frees { Frees self.old.slots self.new.slots slot }
        ensures room { self.old.room ≤ self.new.room }
    {
        if let Some(slot) = slot {
            unlink(&mut self.nodes, &mut self.heads, slot);
        }
    }

    /// The version of a slot.
    pub(crate) fn get(&self, slot: u32) -> Option<&Version>
        ensures { option_copied result ≡ slice_index_or self.now.slots slot None }
    {
        match self.nodes.get(slot) {
            Some(node) => Some(&node.version),
            None => None,
        }
    }

    /// The slot of a version that is sought under a key.
    pub(crate) fn find(&self, places: &Places, asked: &Asked<'_>, sought: Sought) -> Option<u32>
        requires { in_order places.now.listed ≡ true }
        ensures some { IfSome result (λ slot. (version : Content) × (slice_index_or self.now.slots slot None ≡ Some version) × IsMatch sought places.now.listed asked.now.table asked.now.places.now asked.now.key.now asked.now.by slot version) }
        ensures none { IfNone result ((slot : ℕ) (version : Content) → slice_index_or self.now.slots slot None ≡ Some version → version.hash ≡ key_hash asked.now.table asked.now.key.now → IsMatch sought places.now.listed asked.now.table asked.now.places.now asked.now.key.now asked.now.by slot version → ⊥) }
    {
        first_match(&self.nodes, &self.heads, places, asked, sought)
    }
}
