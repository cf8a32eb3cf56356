//! Edits of an index where enablements change.
ghost use Rattle.std.specs.Prelude.{◌≡◌, ◌==◌, ◌||◌, ◌&&◌, ℕ, IfOk, IsTrue, OnOk, true, false, map};
ghost use Rattle.std.specs.BTreeSet.{contains};
ghost use Rattle.std.specs.List.{list_all};
ghost use Rattle.std.specs.Ordering.{nat_cmp};
ghost use Rattle.std.specs.Str.{bytes_eq};
ghost use Rattle.au_base.specs.Order.{is_in_order, name_before};
ghost use Rattle.au_entries.specs.declared.change.Change.TheVariants as change;
ghost use Rattle.au_entries.specs.Changing.{enabled_after, is_on, with_enablement};
ghost use Rattle.au_entries.specs.Demand.{enablement_of};
ghost use Rattle.au_pindex.specs.declared.index.Index.{Index as AnyIndex};
ghost use Rattle.au_pindex.specs.descent.Finding.{StandsAt, is_named};
ghost use Rattle.au_pindex.specs.Places.{passes_at};
ghost use Rattle.au_pindex.specs.descent.Edits as edits;
ghost use Rattle.au_pindex.specs.descent.Fitting.{FitsEdit};
ghost use Rattle.au_pindex.specs.descent.Leading.{Leads};
ghost use Rattle.au_pindex.specs.descent.Edits.{IsLeaving, Keeps, is_left_by, is_off_without};
ghost use Rattle.au_policy.specs.Asking.{CanBeAsked};

use crate::buckets::take;
use crate::finding::find_policy;
use crate::index::Index;
use crate::reserving::reserve_policy;
use crate::shift::Shift;
use crate::staged::{ConditionEdit, IndexEdit, Joining, no_edit, parts_of};
use au_base::{List, Memory, Name};
use au_catalog::Catalog;
use au_entries::{AuditPolicy, Enabled, Outcomes};
use au_policy::is_policy_on;
use std::alloc::Global;
use std::collections::BTreeSet;

/// The edit of an index where the policy of this name is enabled so. The index keeps what it has. A
/// policy that comes to be enabled costs what it names. One that is turned off costs more when the edit
/// is settled, which goes over all places then.
pub(crate) fn enable(
    index: &mut Index,
    alloc: Global,
    catalog: &Catalog,
    name: &Name,
    enabled: &Enabled,
) -> Result<IndexEdit, Memory>
    requires catalog { CanBeAsked catalog.now }
    ensures leads { IfOk result (Leads catalog.now.enabled catalog.now.policies (with_enablement name.now enabled.now catalog.now.enabled) catalog.now.policies) }
    ensures fits { IfOk result (λ edit. FitsEdit edit index.new) }
    ensures keeps { Keeps index.old index.new }
{
    match find_policy(catalog.policies.as_slice(), name) {
        Ok(place) => enable_at(index, alloc, catalog, name, enabled, place),
        Err(_) => Ok(no_edit()),
    }
}

// The same, where the policy stands at the place.
fn enable_at(
    index: &mut Index,
    alloc: Global,
    catalog: &Catalog,
    name: &Name,
    enabled: &Enabled,
    place: usize,
) -> Result<IndexEdit, Memory>
    requires catalog { CanBeAsked catalog.now }
    requires stands { StandsAt name.now catalog.now.policies place }
    ensures leads { IfOk result (Leads catalog.now.enabled catalog.now.policies (with_enablement name.now enabled.now catalog.now.enabled) catalog.now.policies) }
    ensures fits { IfOk result (λ edit. FitsEdit edit index.new) }
    ensures keeps { Keeps index.old index.new }
{
    if is_policy_on(catalog.enabled.as_slice(), name) {
        return enable_again(alloc, catalog, name, enabled, place);
    }
    enable_first(index, alloc, catalog, name, enabled, place)
}

// The same, where the policy is enabled for somebody.
fn enable_again(
    alloc: Global,
    catalog: &Catalog,
    name: &Name,
    enabled: &Enabled,
    place: usize,
) -> Result<IndexEdit, Memory>
    requires stands { StandsAt name.now catalog.now.policies place }
    requires on { is_on (enablement_of catalog.now.enabled name.now) ≡ true }
    ensures leads { IfOk result (Leads catalog.now.enabled catalog.now.policies (with_enablement name.now enabled.now catalog.now.enabled) catalog.now.policies) }
    ensures fits { IfOk result (λ edit. (index : AnyIndex) → FitsEdit edit index) }
{
    if enabled.is_on() {
        return Ok(no_edit());
    }
    leave(alloc, place)
}

// The same, where the policy is enabled for nobody.
fn enable_first(
    index: &mut Index,
    alloc: Global,
    catalog: &Catalog,
    name: &Name,
    enabled: &Enabled,
    place: usize,
) -> Result<IndexEdit, Memory>
    requires stands { StandsAt name.now catalog.now.policies place }
    requires off { is_on (enablement_of catalog.now.enabled name.now) ≡ false }
    ensures leads { IfOk result (Leads catalog.now.enabled catalog.now.policies (with_enablement name.now enabled.now catalog.now.enabled) catalog.now.policies) }
    ensures fits { IfOk result (λ edit. FitsEdit edit index.new) }
    ensures keeps { Keeps index.old index.new }
{
    let policies = catalog.policies.as_slice();
    if enabled.is_on() {
        return join(index, alloc, &policies[place], place);
    }
    Ok(no_edit())
}

// The place leaves all buckets.
fn leave(alloc: Global, place: usize) -> Result<IndexEdit, Memory>
    ensures leaves { IfOk result (IsLeaving (λ at. place == at)) }
    ensures fits { IfOk result (λ edit. (index : AnyIndex) → FitsEdit edit index) }
{
    let mut places = BTreeSet::new(alloc);
    take(&mut places, place)?;
    Ok(leaving(places))
}

// These places leave all buckets.
fn leaving(places: BTreeSet<usize>) -> IndexEdit
    ensures leaves { IsLeaving (contains nat_cmp places) result }
    ensures fits { (index : AnyIndex) → FitsEdit result index }
{
    IndexEdit {
        shift: Some(Shift::Leaves(places)),
        condition: ConditionEdit::Stays,
        joining: None,
    }
}

// The place of the policy joins the buckets of what it names, which get room for it.
fn join(
    index: &mut Index,
    alloc: Global,
    policy: &AuditPolicy,
    place: usize,
) -> Result<IndexEdit, Memory>
    ensures edit { IfOk result (λ edit. edit ≡ edits.joins place policy.now) }
    ensures fits { IfOk result (λ edit. FitsEdit edit index.new) }
    ensures keeps { Keeps index.old index.new }
{
    let policy = parts_of(policy)?;
    reserve_policy(alloc, &mut index.buckets, &policy)?;
    Ok(IndexEdit {
        shift: None,
        condition: ConditionEdit::Stays,
        joining: Some(Joining { place, policy }),
    })
}

/// The edit of an index where the user is dropped: the policies that are enabled for this user alone
/// are enabled for nobody then. It goes over the enablements once. Where no policy is left so, there
/// is nothing to edit; where some are, settling goes over all places once.
pub(crate) fn drop_user(alloc: Global, catalog: &Catalog, user: &Name) -> Result<IndexEdit, Memory>
    requires catalog { CanBeAsked catalog.now }
    ensures leads { IfOk result (Leads catalog.now.enabled catalog.now.policies (enabled_after (change.UserGone user.now) catalog.now.enabled) catalog.now.policies) }
    ensures fits { IfOk result (λ edit. (index : AnyIndex) → FitsEdit edit index) }
{
    let enabled = catalog.enabled.as_slice();
    let policies = catalog.policies.as_slice();
    let places = places_left(alloc, enabled, policies, user)?;
    if places.is_empty() {
        return Ok(no_edit());
    }
    Ok(leaving(places))
}

// The places of the policies that are enabled for this user alone.
fn places_left(
    alloc: Global,
    enabled: &[(Name, Enabled)],
    policies: &[AuditPolicy],
    user: &Name,
) -> Result<BTreeSet<usize>, Memory>
    requires enabled { IsTrue (is_in_order name_before (map (λ entry. entry.0) enabled.now)) }
    requires policies { IsTrue (is_in_order name_before (map (λ policy. policy.name) policies.now)) }
    ensures { IfOk result (λ places. (at : ℕ) → contains nat_cmp places at ≡ passes_at (is_off_without user.now enabled.now) policies.now at) }
{
    let mut places = BTreeSet::new(alloc);
    for entry in enabled {
        add_left(&mut places, policies, entry, user)?;
    }
    Ok(places)
}

// Adds the place of the policy, where its enablement is for this user alone.
fn add_left(
    places: &mut BTreeSet<usize>,
    policies: &[AuditPolicy],
    entry: &(Name, Enabled),
    user: &Name,
) -> Result<(), Memory>
    requires policies { IsTrue (is_in_order name_before (map (λ policy. policy.name) policies.now)) }
    ensures { OnOk result ((at : ℕ) → contains nat_cmp places.new at ≡ ((is_left_by user.now entry.now.1 && passes_at (is_named entry.now.0) policies.now at) || contains nat_cmp places.old at)) }
{
    if is_for_alone(&entry.1, user) {
        return add_named(places, policies, &entry.0);
    }
    Ok(())
}

// Adds the place of the policy of this name, where there is one.
fn add_named(
    places: &mut BTreeSet<usize>,
    policies: &[AuditPolicy],
    name: &Name,
) -> Result<(), Memory>
    requires policies { IsTrue (is_in_order name_before (map (λ policy. policy.name) policies.now)) }
    ensures { OnOk result ((at : ℕ) → contains nat_cmp places.new at ≡ (passes_at (is_named name.now) policies.now at || contains nat_cmp places.old at)) }
{
    match find_policy(policies, name) {
        Ok(place) => take(places, place),
        Err(_) => Ok(()),
    }
}

// Whether the enablement is for this user alone.
fn is_for_alone(enabled: &Enabled, user: &Name) -> bool
    ensures { result ≡ is_left_by user.now enabled.now }
{
    match enabled {
        Enabled::Off => false,
        Enabled::By(users) => is_listed_alone(users, user),
        Enabled::Except(_, _) => false,
    }
}

fn is_listed_alone(users: &List<(Name, Outcomes)>, user: &Name) -> bool
    ensures { result ≡ is_left_by user.now (Enabled.By users.now) }
{
    if users.is_empty() {
        return false;
    }
    are_all(users.as_slice(), user)
}

fn are_all(users: &[(Name, Outcomes)], user: &Name) -> bool
    ensures { result ≡ list_all (λ listed. bytes_eq listed.0 user.now) users.now }
{
    users.iter().all(|listed| listed.0 == *user)
}
