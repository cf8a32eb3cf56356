//! The policies that name a statement.
ghost use Rattle.std.specs.Prelude.{◌≡◌, ◌||◌, ℕ, IfOk, OnOk, length};
ghost use Rattle.std.specs.BTreeMap.{IsOrdered};
ghost use Rattle.std.specs.BTreeSet.{contains};
ghost use Rattle.std.specs.Cmp.Lexicographic.{slice_cmp};
ghost use Rattle.std.specs.List.{list_any};
ghost use Rattle.std.specs.List.Sorted.{IsStrictlySortedBy};
ghost use Rattle.std.specs.Ordering.{nat_cmp};
ghost use Rattle.au_base.specs.Privileges as privileges;
ghost use Rattle.au_pindex.specs.Buckets.{is_in_bucket};
ghost use Rattle.au_pindex.specs.Indexing.{AreBucketsOf, table_cmp};
ghost use Rattle.au_pindex.specs.Naming.{count_named, is_named};
ghost use Rattle.au_pindex.specs.descent.Places.{places_where};
ghost use Rattle.au_pindex.specs.descent.Taking.{is_in_role, is_taken};

use crate::bucketed::Bucketed;
use crate::buckets::{take_all, take_bucket};
use crate::roles::is_covered;
use au_base::{Action, Memory, Name, Privilege, TableName};
use au_catalog::Catalog;
use au_entries::Facts;
use au_grants::Grants;
use std::alloc::Global;
use std::collections::{BTreeMap, BTreeSet};

/// The places of the enabled policies that name the statement, in order.
pub(crate) fn named_places(
    alloc: Global,
    buckets: &Bucketed,
    catalog: &Catalog,
    grants: &Grants,
    facts: &Facts,
) -> Result<Vec<usize>, Memory>
    requires { AreBucketsOf catalog.now.enabled catalog.now.policies buckets.now }
    ensures places { IfOk result (λ places. places.items ≡ places_where (is_named grants.now catalog.now.enabled facts.now) 0 catalog.now.policies) }
    ensures count { IfOk result (λ places. length places.items ≡ count_named grants.now catalog.now facts.now) }
{
    let named = all_named(alloc, buckets, grants, facts)?;
    let places = in_order(alloc, &named)?;
    Ok(places)
}

// The places in their order.
fn in_order(alloc: Global, places: &BTreeSet<usize>) -> Result<Vec<usize>, Memory>
    ensures value { IfOk result (λ listed. listed.items ≡ places.now.keys) }
    ensures order { IsStrictlySortedBy nat_cmp places.now.keys }
{
    Ok(places.iter().copied().collect(alloc)?)
}

// The places in all buckets of the statement.
fn all_named(
    alloc: Global,
    buckets: &Bucketed,
    grants: &Grants,
    facts: &Facts,
) -> Result<BTreeSet<usize>, Memory>
    ensures taken { IfOk result (λ places. (at : ℕ) → contains nat_cmp places at ≡ is_taken grants.now facts.now buckets.now at) }
    ensures order { OnOk result (IsOrdered (slice_cmp nat_cmp) buckets.now.roles) }
{
    let mut places = BTreeSet::new(alloc);
    take_bucket(&mut places, &buckets.actions, &facts.action.code())?;
    take_bucket(&mut places, &buckets.actions, &Action::All.code())?;
    take_tables(&mut places, &buckets.tables, facts.tables.as_slice())?;
    take_privileges(&mut places, &buckets.privileges, facts.used.as_slice())?;
    take_roles(&mut places, &buckets.roles, grants, facts)?;
    Ok(places)
}

fn take_tables(
    places: &mut BTreeSet<usize>,
    buckets: &BTreeMap<TableName, Vec<usize>>,
    tables: &[TableName],
) -> Result<(), Memory>
    ensures { OnOk result ((at : ℕ) → contains nat_cmp places.new at ≡ (list_any (λ table. is_in_bucket table_cmp buckets.now table at) tables.now || contains nat_cmp places.old at)) }
{
    for table in tables {
        take_bucket(places, buckets, table)?;
    }
    Ok(())
}

fn take_privileges(
    places: &mut BTreeSet<usize>,
    buckets: &BTreeMap<u8, Vec<usize>>,
    used: &[Privilege],
) -> Result<(), Memory>
    ensures { OnOk result ((at : ℕ) → contains nat_cmp places.new at ≡ (list_any (λ privilege. is_in_bucket nat_cmp buckets.now (privileges.code_of privilege) at) used.now || contains nat_cmp places.old at)) }
{
    for privilege in used {
        take_bucket(places, buckets, &privilege.code())?;
    }
    Ok(())
}

// Adds the places of the buckets of all roles to which a privilege that was used is granted.
fn take_roles(
    places: &mut BTreeSet<usize>,
    buckets: &BTreeMap<Name, Vec<usize>>,
    grants: &Grants,
    facts: &Facts,
) -> Result<(), Memory>
    ensures taken { OnOk result ((at : ℕ) → contains nat_cmp places.new at ≡ (list_any (is_in_role grants.now facts.now at) buckets.now.entries || contains nat_cmp places.old at)) }
    ensures order { IsOrdered (slice_cmp nat_cmp) buckets.now }
{
    for (role, bucket) in buckets.iter() {
        if is_covered(grants, facts, role) {
            take_all(places, bucket.as_slice())?;
        }
    }
    Ok(())
}
