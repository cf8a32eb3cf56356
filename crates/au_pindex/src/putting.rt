//! Edits of an index where policies come, stand anew and go.
ghost use Rattle.std.specs.Prelude.{◌≡◌, ◌≤◌, ◌<◌, IfOk, None, Some, if◌then◌else◌, length};
ghost use Rattle.au_entries.specs.declared.policy.AuditPolicy.{AuditPolicy as AnyPolicy};
ghost use Rattle.au_grants.specs.Changing.{without};
ghost use Rattle.au_pindex.specs.descent.Finding.{is_named, with_policy};
ghost use Rattle.au_pindex.specs.Indexing.{condition_of};
ghost use Rattle.au_pindex.specs.descent.Rooms.{KeepAllPlaces};
ghost use Rattle.au_pindex.specs.descent.Edits as edits;
ghost use Rattle.au_pindex.specs.descent.Fitting.{FitsEdit, FitsJoining};
ghost use Rattle.au_pindex.specs.descent.Leading.{Leads};
ghost use Rattle.au_pindex.specs.descent.Edits.{IsLeavingWhere, IsReplacing, Keeps, without_condition};
ghost use Rattle.au_policy.specs.Asking.{CanBeAsked};

use crate::bucketed::Bucketed;
use crate::buckets::take;
use crate::finding::find_policy;
use crate::index::Index;
use crate::reserving::reserve_policy;
use crate::shift::Shift;
use crate::staged::{ConditionEdit, IndexEdit, Joining, no_edit};
use au_base::{Memory, Name};
use au_catalog::Catalog;
use au_entries::AuditPolicy;
use au_expr::Resolved;
use au_policy::is_policy_on;
use std::alloc::Global;
use std::collections::BTreeSet;

/// The edit of an index where the policy of this name is dropped. It takes no memory. Settling goes
/// over all places, since those behind it move.
pub(crate) fn drop_policy(index: &Index, catalog: &Catalog, name: &Name) -> IndexEdit
    requires catalog { CanBeAsked catalog.now }
    requires conditions { length index.now.conditions.items ≡ length catalog.now.policies }
    ensures leads { Leads catalog.now.enabled catalog.now.policies catalog.now.enabled (without (is_named name.now) catalog.now.policies) result }
    ensures fits { FitsEdit result index.now }
{
    match find_policy(catalog.policies.as_slice(), name) {
        Ok(place) => close(place),
        Err(_) => no_edit(),
    }
}

// The policy at the place goes.
fn close(place: usize) -> IndexEdit
    ensures { result ≡ edits.closes place }
{
    IndexEdit {
        shift: Some(Shift::Closes(place)),
        condition: ConditionEdit::Closes(place),
        joining: None,
    }
}

/// The edit of an index where the policy stands among the others, in place of one that has its name.
/// The policy comes without its condition, which comes resolved. The index keeps what it has. Settling
/// goes over all places, unless a policy that stands anew is enabled for nobody.
pub(crate) fn put_policy(
    index: &mut Index,
    alloc: Global,
    catalog: &Catalog,
    policy: AuditPolicy,
    condition: Option<Resolved>,
) -> Result<IndexEdit, Memory>
    requires catalog { CanBeAsked catalog.now }
    requires conditions { length index.old.conditions.items ≡ length catalog.now.policies }
    ensures leads { IfOk result (λ edit. (whole : AnyPolicy) → policy ≡ without_condition whole → condition ≡ condition_of whole → Leads catalog.now.enabled catalog.now.policies catalog.now.enabled (with_policy whole.name whole catalog.now.policies) edit) }
    ensures fits { IfOk result (λ edit. FitsEdit edit index.new) }
    ensures keeps { Keeps index.old index.new }
{
    let on = is_policy_on(catalog.enabled.as_slice(), &policy.name);
    match find_policy(catalog.policies.as_slice(), &policy.name) {
        Ok(place) => replace(index, alloc, on, place, policy, condition),
        Err(place) => add(index, alloc, on, place, policy, condition),
    }
}

// The policy comes to stand at the place.
fn add(
    index: &mut Index,
    alloc: Global,
    on: bool,
    place: usize,
    policy: AuditPolicy,
    condition: Option<Resolved>,
) -> Result<IndexEdit, Memory>
    requires place { place ≤ length index.old.conditions.items }
    ensures edit { IfOk result (λ edit. edit ≡ edits.adds on place policy condition) }
    ensures fits { IfOk result (λ edit. FitsEdit edit index.new) }
    ensures keeps { Keeps index.old index.new }
{
    index.conditions.reserve(1)?;
    let joining = joining_where(&mut index.buckets, alloc, on, place, policy)?;
    Ok(IndexEdit {
        shift: Some(Shift::Opens(place)),
        condition: ConditionEdit::Opens(place, condition),
        joining,
    })
}

// The policy stands at the place in place of another.
fn replace(
    index: &mut Index,
    alloc: Global,
    on: bool,
    place: usize,
    policy: AuditPolicy,
    condition: Option<Resolved>,
) -> Result<IndexEdit, Memory>
    requires place { place < length index.old.conditions.items }
    ensures edit { IfOk result (IsReplacing on place policy condition) }
    ensures fits { IfOk result (λ edit. FitsEdit edit index.new) }
    ensures keeps { Keeps index.old index.new }
{
    let joining = joining_where(&mut index.buckets, alloc, on, place, policy)?;
    let shift = leaving_where(alloc, on, place)?;
    Ok(IndexEdit {
        shift,
        condition: ConditionEdit::Sets(place, condition),
        joining,
    })
}

// The place of the policy joins the buckets of what it names, where it is enabled. These get room for
// it.
fn joining_where(
    buckets: &mut Bucketed,
    alloc: Global,
    on: bool,
    place: usize,
    policy: AuditPolicy,
) -> Result<Option<Joining>, Memory>
    ensures value { IfOk result (λ joining. joining ≡ (if on then Some (record { place = place; policy = policy }) else None)) }
    ensures fits { IfOk result (λ joining. FitsJoining joining buckets.new) }
    ensures keeps { KeepAllPlaces buckets.old buckets.new }
{
    if on {
        reserve_policy(alloc, buckets, &policy)?;
        return Ok(Some(Joining { place, policy }));
    }
    Ok(None)
}

// The place leaves all buckets, where the policy at it is enabled.
fn leaving_where(alloc: Global, on: bool, place: usize) -> Result<Option<Shift>, Memory>
    ensures { IfOk result (IsLeavingWhere on place) }
{
    if on {
        let mut places = BTreeSet::new(alloc);
        take(&mut places, place)?;
        return Ok(Some(Shift::Leaves(places)));
    }
    Ok(None)
}
