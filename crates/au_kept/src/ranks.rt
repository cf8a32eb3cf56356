//! Numbers of names by which grants of roles close no circle.
ghost use Rattle.std.specs.Prelude.{◌≡◌, IsTrue};
ghost use Rattle.std.specs.List.{AllByRecursion};
ghost use Rattle.au_kept.specs.Ranks.{IsRanked, rank_in};

use au_base::{Memory, Name};
use au_entries::Change;
use std::alloc::Global;
use std::collections::BTreeMap;

/// The names of the grants of roles among the changes, each with its place in an order in which each
/// role comes before those it is granted to. Nothing is said of it: `are_ranked` tests it, and where
/// there is a circle there is no such order.
pub(crate) fn ranks_of(alloc: Global, changes: &[Change]) -> Result<BTreeMap<Name, u32>, Memory> {
    let mut ranks = BTreeMap::new(alloc);
    for change in changes {
        list_names(&mut ranks, change)?;
    }
    number(&mut ranks);
    let edges = edges_of(alloc, &ranks, changes)?;
    let order = order_of(alloc, ranks.len(), edges.as_slice())?;
    for rank in ranks.values_mut() {
        *rank = order.get(*rank as usize).copied().unwrap_or(0);
    }
    Ok(ranks)
}

fn list_names(ranks: &mut BTreeMap<Name, u32>, change: &Change) -> Result<(), Memory> {
    if let Change::RoleGrant(grantee, role, _) = change {
        ranks.insert(grantee.clone()?, 0)?;
        ranks.insert(role.clone()?, 0)?;
    }
    Ok(())
}

// Numbers the names from 0 on.
fn number(ranks: &mut BTreeMap<Name, u32>) {
    let mut next = 0u32;
    for rank in ranks.values_mut() {
        *rank = next;
        next = next.saturating_add(1);
    }
}

// The grants among the changes, by the numbers of their roles and of their grantees, in the order of roles.
fn edges_of(
    alloc: Global,
    numbers: &BTreeMap<Name, u32>,
    changes: &[Change],
) -> Result<Vec<(u32, u32)>, Memory> {
    let mut edges = Vec::new(alloc);
    for change in changes {
        if let Change::RoleGrant(grantee, role, _) = change {
            edges.push((rank_of(numbers, role), rank_of(numbers, grantee)))?;
        }
    }
    edges.sort()?;
    Ok(edges)
}

// The place of each of so many names in an order in which the first name of each edge comes before its
// second. Names of a circle, and those behind it, have the place 0.
fn order_of(alloc: Global, count: usize, edges: &[(u32, u32)]) -> Result<Vec<u32>, Memory> {
    let mut waiting = waits_of(alloc, count, edges)?;
    let mut queue = first_names(alloc, waiting.as_slice())?;
    let mut order: Vec<u32> = Vec::new(alloc);
    order.resize(count, 0)?;
    let mut next = 0u32;
    for place in 0..count {
        let Some(name) = queue.get(place).copied() else {
            return Ok(order);
        };
        if let Some(at) = order.get_mut(name as usize) {
            *at = next;
        }
        next = next.saturating_add(1);
        release(&mut queue, waiting.as_mut_slice(), edges, name)?;
    }
    Ok(order)
}

// For how many others each of so many names waits: those of which edges lead to it.
fn waits_of(alloc: Global, count: usize, edges: &[(u32, u32)]) -> Result<Vec<u32>, Memory> {
    let mut waiting: Vec<u32> = Vec::new(alloc);
    waiting.resize(count, 0)?;
    for edge in edges {
        if let Some(before) = waiting.get_mut(edge.1 as usize) {
            *before = before.saturating_add(1);
        }
    }
    Ok(waiting)
}

// The names that wait for none.
fn first_names(alloc: Global, waiting: &[u32]) -> Result<Vec<u32>, Memory> {
    let mut queue: Vec<u32> = Vec::new(alloc);
    let mut name = 0u32;
    for before in waiting {
        if *before == 0 {
            queue.push(name)?;
        }
        name = name.saturating_add(1);
    }
    Ok(queue)
}

// Puts into the queue the names that waited for this one alone.
fn release(
    queue: &mut Vec<u32>,
    waiting: &mut [u32],
    edges: &[(u32, u32)],
    name: u32,
) -> Result<(), Memory> {
    let from = edges.partition_point(|edge| edge.0 < name);
    for edge in edges.get(from..).unwrap_or(&[]) {
        if edge.0 != name {
            return Ok(());
        }
        if is_released(waiting, edge.1) {
            queue.push(edge.1)?;
        }
    }
    Ok(())
}

// Counts down what the name waits for, and says whether it waits for nothing more.
fn is_released(waiting: &mut [u32], name: u32) -> bool {
    match waiting.get_mut(name as usize) {
        Some(before) => {
            *before = before.saturating_sub(1);
            *before == 0
        }
        None => false,
    }
}

/// Whether each grant of a role among the changes is of one with a smaller number than its grantee's.
pub(crate) fn are_ranked(ranks: &BTreeMap<Name, u32>, changes: &[Change]) -> bool
    ensures { IsTrue result → AllByRecursion (IsRanked ranks.now.entries) changes.now }
{
    for change in changes {
        if !is_ranked(ranks, change) {
            return false;
        }
    }
    true
}

fn is_ranked(ranks: &BTreeMap<Name, u32>, change: &Change) -> bool
    ensures { IsTrue result → IsRanked ranks.now.entries change.now }
{
    match change {
        Change::RoleGrant(grantee, role, _) => rank_of(ranks, role) < rank_of(ranks, grantee),
        _ => true,
    }
}

fn rank_of(ranks: &BTreeMap<Name, u32>, name: &Name) -> u32
    ensures { result ≡ rank_in ranks.now.entries name.now }
{
    ranks.get(name).copied().unwrap_or(0)
}
