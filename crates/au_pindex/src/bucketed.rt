//! Enabled policies by what their parts name.
ghost use Rattle.std.specs.Prelude.{[], true, ℕ, List as Sequence, IfOk, IsTrue, OnOk, map};
ghost use Rattle.au_base.specs.Order.{is_in_order, name_before};
ghost use Rattle.au_entries.specs.declared.policy.Enabled.{Enabled as Enablement};
ghost use Rattle.au_pindex.specs.descent.Adding.{AddsPolicy};
ghost use Rattle.au_pindex.specs.Indexing.{AreBucketsOf};
ghost use Rattle.au_pindex.specs.Naming.{is_enabled};

use crate::joining::join_policy;
use crate::reserving::reserve_policy;
use au_base::{Memory, Name, TableName};
use au_entries::{AuditPolicy, Enabled};
use au_policy::is_policy_on;
use std::alloc::Global;
use std::collections::BTreeMap;

/// The places of the enabled policies by what their parts name: actions by their numbers, tables,
/// system privileges by their numbers, and roles.
#[derive(Drop)]
pub struct Bucketed {
    pub(crate) actions: BTreeMap<u8, Vec<usize>>,
    pub(crate) tables: BTreeMap<TableName, Vec<usize>>,
    pub(crate) privileges: BTreeMap<u8, Vec<usize>>,
    pub(crate) roles: BTreeMap<Name, Vec<usize>>,
}

impl Bucketed {
    /// Where there are no policies, there are no places. It takes no memory.
    pub(crate) fn new(alloc: Global) -> Bucketed
        ensures { (enabled : Sequence (Sequence ℕ × Enablement)) → AreBucketsOf enabled [] result }
    {
        Bucketed {
            actions: BTreeMap::new(alloc),
            tables: BTreeMap::new(alloc),
            privileges: BTreeMap::new(alloc),
            roles: BTreeMap::new(alloc),
        }
    }
}

/// The places of the enabled policies among these.
pub(crate) fn buckets_of(
    alloc: Global,
    enabled: &[(Name, Enabled)],
    policies: &[AuditPolicy],
) -> Result<Bucketed, Memory>
    requires enabled { IsTrue (is_in_order name_before (map (λ entry. entry.0) enabled.now)) }
    ensures { IfOk result (AreBucketsOf enabled.now policies.now) }
{
    let mut buckets = Bucketed::new(alloc);
    for place in 0..policies.len() {
        add_enabled(alloc, &mut buckets, enabled, &policies[place], place)?;
    }
    Ok(buckets)
}

// Adds the place of the policy, where it is enabled.
fn add_enabled(
    alloc: Global,
    buckets: &mut Bucketed,
    enabled: &[(Name, Enabled)],
    policy: &AuditPolicy,
    place: usize,
) -> Result<(), Memory>
    requires enabled { IsTrue (is_in_order name_before (map (λ entry. entry.0) enabled.now)) }
    ensures { OnOk result (AddsPolicy (is_enabled enabled.now policy.now) policy.now place buckets.old buckets.new) }
{
    if is_policy_on(enabled, &policy.name) {
        add_policy(alloc, buckets, policy, place)?;
    }
    Ok(())
}

// Adds the place of the policy to the buckets of all that its parts name.
fn add_policy(
    alloc: Global,
    buckets: &mut Bucketed,
    policy: &AuditPolicy,
    place: usize,
) -> Result<(), Memory>
    ensures { OnOk result (AddsPolicy true policy.now place buckets.old buckets.new) }
{
    reserve_policy(alloc, buckets, policy)?;
    join_policy(buckets, policy, place);
    Ok(())
}
