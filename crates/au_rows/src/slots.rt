//! Slots for nodes.
ghost use Rattle.std.specs.Prelude.{◌≡◌, ◌≢◌, ◌⊎◌, ℕ, ◌+◌, ◌++◌, ◌∷◌, ◌<◌, ◌≤◌, ◌^◌, [], IfNone, IfOk, IfSome, None, OnOk, Some, length, min, slice_index_or, slice_set, vec_len, vec_capacity};
ghost use Rattle.std.specs.Option.{option_copied};
ghost use Rattle.au_rows.specs.Chains.{Relinks};
ghost use Rattle.au_rows.specs.Slots.{Vacancies};

use crate::node::Node;
use au_base::Memory;
use std::alloc::Global;
use std::marker::Model;

/// How many slots there are at most.
const MOST: usize = 1 << 32;

/// Nodes, each in a slot that it is given. Contracts see the node or nothing in each slot, and how
/// many more nodes it takes without memory.
#[derive(Drop)]
pub struct Slots {
    nodes: Vec<Option<Node>>,
    /// The slots that are to be given again, the next one last.
    vacant: Vec<u32>,
}

impl Model for Slots {
    ghost use Rattle.au_rows.specs.Slots.{Stocked};

    ghost Value = { Stocked };

    ghost use Rattle.std.specs.Prelude.{◌≤◌, ◌+◌, ◌-◌, ◌^◌, min, vec_len, vec_capacity};
    ghost use Rattle.au_rows.specs.Slots.{Vacancies};

    ghost view = { λ s. record { slots = s.nodes.items; room = (min (vec_capacity s.nodes) (2 ^ 32) - vec_len s.nodes) + vec_len s.vacant } };

    ghost invariant = { λ s. Vacancies s.nodes.items s.vacant.items × (vec_len s.nodes ≤ 2 ^ 32) };
}

impl Slots {
    /// No node, and no room.
    pub(crate) fn new(alloc: Global) -> Self
        ensures slots { result.slots ≡ [] }
        ensures room { result.room ≡ 0 }
    {
        Slots {
            nodes: Vec::new(alloc),
            vacant: Vec::new(alloc),
        }
    }

    /// Makes room for so many more nodes.
    pub(crate) fn reserve(&mut self, more: usize) -> Result<(), Memory>
        ensures ok { OnOk result (more ≤ self.new.room) }
        ensures slots { self.new.slots ≡ self.old.slots }
        ensures room { self.old.room ≤ self.new.room }
    {
        let needed = more.saturating_sub(self.vacant.len());
        if MOST - self.nodes.len() < needed {
            return Err(Memory);
        }
        self.nodes.reserve(needed)?;
        // so that a slot that becomes vacant finds room
        let all = self.nodes.len() + needed;
        self.vacant.reserve(all.saturating_sub(self.vacant.len()))?;
        Ok(())
    }

    /// How many slots there are, with those that are vacant.
    pub(crate) fn len(&self) -> usize
        ensures { result ≡ length self.now.slots }
    {
        self.nodes.len()
    }

    /// The node of a slot.
    pub(crate) fn get(&self, slot: u32) -> Option<&Node>
        ensures { option_copied result ≡ slice_index_or self.now.slots slot None }
    {
        match self.nodes.get(slot as usize) {
            Some(Some(node)) => Some(node),
            _ => None,
        }
    }

    /// Takes a node in, and answers its slot. It takes no memory.
    pub(crate) fn insert(&mut self, node: Node) -> u32
        requires { 0 < self.old.room }
        ensures vacant { slice_index_or self.old.slots result None ≡ None }
        ensures filled { slice_index_or self.new.slots result None ≡ Some node }
        ensures others { (other : ℕ) → other ≢ result → slice_index_or self.new.slots other None ≡ slice_index_or self.old.slots other None }
        ensures room { self.old.room ≡ self.new.room + 1 }
    {
        match next_vacant(&mut self.vacant) {
            Some(slot) => {
                fill(&mut self.nodes, slot, node);
                slot
            }
            None => add(&mut self.nodes, node),
        }
    }

    /// Lets a node name another slot as the one below it.
    pub(crate) fn set_below(&mut self, slot: u32, below: Option<u32>)
        ensures relinks { Relinks self.old.slots self.new.slots slot below }
        ensures room { self.new.room ≡ self.old.room }
    {
        if (slot as usize) < self.nodes.len() {
            set_below(&mut self.nodes, slot, below);
        }
    }

    /// Lets the node of a slot go, where there is one. It takes no memory.
    pub(crate) fn take_out(&mut self, slot: u32)
        ensures vacant { slice_index_or self.new.slots slot None ≡ None }
        ensures others { (other : ℕ) → other ≢ slot → slice_index_or self.new.slots other None ≡ slice_index_or self.old.slots other None }
        ensures room { self.old.room ≤ self.new.room }
    {
        if self.get(slot).is_some() {
            empty(&mut self.nodes, slot);
            give_back(&mut self.vacant, slot);
        }
    }
}

/// Takes the last of the vacant slots. `None` where there is none.
fn next_vacant(vacant: &mut Vec<u32>) -> Option<u32>
    ensures some { IfSome result (λ slot. vacant.old.items ≡ vacant.new.items ++ slot ∷ []) }
    ensures some_len { IfSome result (λ slot. vec_len vacant.old ≡ vec_len vacant.new + 1) }
    ensures none { IfNone result (vec_len vacant.old ≡ 0) }
    ensures none_len { IfNone result (vec_len vacant.new ≡ 0) }
{
    vacant.pop()
}

/// Puts a node into a vacant slot.
fn fill(nodes: &mut Vec<Option<Node>>, slot: u32, node: Node)
    requires { slot < vec_len nodes.old }
    ensures items { nodes.new.items ≡ slice_set nodes.old.items slot (Some node) }
    ensures len { vec_len nodes.new ≡ vec_len nodes.old }
    ensures capacity { vec_capacity nodes.new ≡ vec_capacity nodes.old }
{
    nodes[slot as usize] = Some(node);
}

/// Puts a node into a slot behind all others, and answers it. It takes no memory.
fn add(nodes: &mut Vec<Option<Node>>, node: Node) -> u32
    requires { vec_len nodes.old < min (vec_capacity nodes.old) (2 ^ 32) }
    ensures slot { result ≡ vec_len nodes.old }
    ensures items { nodes.new.items ≡ nodes.old.items ++ Some node ∷ [] }
    ensures len { vec_len nodes.new ≡ vec_len nodes.old + 1 }
    ensures capacity { vec_capacity nodes.new ≡ vec_capacity nodes.old }
{
    let slot = nodes.len() as u32;
    nodes.push_reserved(Some(node));
    slot
}

/// Lets a node name another slot as the one below it.
fn set_below(nodes: &mut Vec<Option<Node>>, slot: u32, below: Option<u32>)
    requires { slot < vec_len nodes.old }
    ensures relinks { Relinks nodes.old.items nodes.new.items slot below }
    ensures vacant { (other : ℕ) → slice_index_or nodes.old.items other None ≡ None → slice_index_or nodes.new.items other None ≡ None }
    ensures len { vec_len nodes.new ≡ vec_len nodes.old }
    ensures capacity { vec_capacity nodes.new ≡ vec_capacity nodes.old }
{
    if let Some(node) = &mut nodes[slot as usize] {
        node.below = below;
    }
}

/// Lets the node of a slot go.
fn empty(nodes: &mut Vec<Option<Node>>, slot: u32)
    requires { slot < vec_len nodes.old }
    ensures items { nodes.new.items ≡ slice_set nodes.old.items slot None }
    ensures len { vec_len nodes.new ≡ vec_len nodes.old }
    ensures capacity { vec_capacity nodes.new ≡ vec_capacity nodes.old }
{
    nodes[slot as usize] = None;
}

/// Keeps a vacant slot, where there is room for it.
fn give_back(vacant: &mut Vec<u32>, slot: u32)
    ensures items { (vacant.new.items ≡ vacant.old.items) ⊎ (vacant.new.items ≡ vacant.old.items ++ slot ∷ []) }
    ensures len { vec_len vacant.old ≤ vec_len vacant.new }
{
    if vacant.len() < vacant.capacity() {
        vacant.push_reserved(slot);
    }
}
