//! Room for the place of a policy in the buckets of all that its parts name.
ghost use Rattle.std.specs.Prelude.{◌≡◌, ◌<◌, ℕ, List as Sequence, true, OnOk};
ghost use Rattle.std.specs.Cmp.Lexicographic.{slice_cmp};
ghost use Rattle.std.specs.List.{list_any};
ghost use Rattle.std.specs.Ordering.{nat_cmp};
ghost use Rattle.std.specs.Str.{bytes_eq};
ghost use Rattle.au_base.specs.declared.action.Action.{Action as AnyAction};
ghost use Rattle.au_base.specs.declared.privilege.Privilege.{Privilege as AnyPrivilege};
ghost use Rattle.au_base.specs.declared.table.TableName.{TableName as Table};
ghost use Rattle.au_base.specs.Actions as numbers;
ghost use Rattle.au_base.specs.Privileges as ranks;
ghost use Rattle.au_base.specs.Sameness.{same_action, same_privilege, same_table};
ghost use Rattle.au_pindex.specs.descent.Rooms.{HasRoomFor, KeepAllPlaces, KeepPlaces, room_in};
ghost use Rattle.au_pindex.specs.Indexing.{table_cmp};
ghost use Rattle.au_pindex.specs.Naming.{is_of_action, is_on_table};

use crate::bucketed::Bucketed;
use crate::buckets::reserve;
use au_base::{Action, Memory, Name, Privilege, TableName};
use au_entries::AuditPolicy;
use std::alloc::Global;
use std::collections::BTreeMap;

/// Makes room for the place of the policy in the buckets of all that its parts name. A bucket that
/// isn't there is made.
pub(crate) fn reserve_policy(
    alloc: Global,
    buckets: &mut Bucketed,
    policy: &AuditPolicy,
) -> Result<(), Memory>
    ensures stays { KeepAllPlaces buckets.old buckets.new }
    ensures room { OnOk result (HasRoomFor policy.now buckets.new) }
{
    reserve_actions(
        alloc,
        &mut buckets.actions,
        &mut buckets.tables,
        policy.actions.as_slice(),
    )?;
    reserve_privileges(alloc, &mut buckets.privileges, policy.privileges.as_slice())?;
    reserve_roles(alloc, &mut buckets.roles, policy.roles.as_slice())
}

fn reserve_actions(
    alloc: Global,
    actions: &mut BTreeMap<u8, Vec<usize>>,
    tables: &mut BTreeMap<TableName, Vec<usize>>,
    parts: &[(Action, Option<TableName>)],
) -> Result<(), Memory>
    ensures actions { KeepPlaces nat_cmp actions.old actions.new }
    ensures tables { KeepPlaces table_cmp tables.old tables.new }
    ensures room { OnOk result ((action : AnyAction) → list_any (is_of_action action) parts.now ≡ true → 0 < room_in nat_cmp actions.new (numbers.code_of action)) }
    ensures on_tables { OnOk result ((table : Table) → list_any (is_on_table table) parts.now ≡ true → 0 < room_in table_cmp tables.new table) }
{
    for part in parts {
        reserve_part(alloc, actions, tables, part)?;
    }
    Ok(())
}

fn reserve_part(
    alloc: Global,
    actions: &mut BTreeMap<u8, Vec<usize>>,
    tables: &mut BTreeMap<TableName, Vec<usize>>,
    part: &(Action, Option<TableName>),
) -> Result<(), Memory>
    ensures actions { KeepPlaces nat_cmp actions.old actions.new }
    ensures tables { KeepPlaces table_cmp tables.old tables.new }
    ensures room { OnOk result ((action : AnyAction) → is_of_action action part.now ≡ true → 0 < room_in nat_cmp actions.new (numbers.code_of action)) }
    ensures on_tables { OnOk result ((table : Table) → is_on_table table part.now ≡ true → 0 < room_in table_cmp tables.new table) }
{
    match &part.1 {
        None => reserve_action(alloc, actions, part.0),
        Some(table) => reserve_table(alloc, tables, table),
    }
}

fn reserve_action(
    alloc: Global,
    buckets: &mut BTreeMap<u8, Vec<usize>>,
    action: Action,
) -> Result<(), Memory>
    ensures stays { KeepPlaces nat_cmp buckets.old buckets.new }
    ensures room { OnOk result ((other : AnyAction) → same_action action other ≡ true → 0 < room_in nat_cmp buckets.new (numbers.code_of other)) }
{
    reserve(alloc, buckets, action.code())
}

fn reserve_table(
    alloc: Global,
    buckets: &mut BTreeMap<TableName, Vec<usize>>,
    table: &TableName,
) -> Result<(), Memory>
    ensures stays { KeepPlaces table_cmp buckets.old buckets.new }
    ensures room { OnOk result ((other : Table) → same_table table.now other ≡ true → 0 < room_in table_cmp buckets.new other) }
{
    let key = table.clone()?;
    reserve(alloc, buckets, key)
}

fn reserve_privileges(
    alloc: Global,
    buckets: &mut BTreeMap<u8, Vec<usize>>,
    privileges: &[Privilege],
) -> Result<(), Memory>
    ensures stays { KeepPlaces nat_cmp buckets.old buckets.new }
    ensures room { OnOk result ((privilege : AnyPrivilege) → list_any (λ part. same_privilege part privilege) privileges.now ≡ true → 0 < room_in nat_cmp buckets.new (ranks.code_of privilege)) }
{
    for privilege in privileges {
        reserve_privilege(alloc, buckets, *privilege)?;
    }
    Ok(())
}

fn reserve_privilege(
    alloc: Global,
    buckets: &mut BTreeMap<u8, Vec<usize>>,
    privilege: Privilege,
) -> Result<(), Memory>
    ensures stays { KeepPlaces nat_cmp buckets.old buckets.new }
    ensures room { OnOk result ((other : AnyPrivilege) → same_privilege privilege other ≡ true → 0 < room_in nat_cmp buckets.new (ranks.code_of other)) }
{
    reserve(alloc, buckets, privilege.code())
}

fn reserve_roles(
    alloc: Global,
    buckets: &mut BTreeMap<Name, Vec<usize>>,
    roles: &[Name],
) -> Result<(), Memory>
    ensures stays { KeepPlaces (slice_cmp nat_cmp) buckets.old buckets.new }
    ensures room { OnOk result ((role : Sequence ℕ) → list_any (λ part. bytes_eq part role) roles.now ≡ true → 0 < room_in (slice_cmp nat_cmp) buckets.new role) }
{
    for role in roles {
        reserve_role(alloc, buckets, role)?;
    }
    Ok(())
}

fn reserve_role(
    alloc: Global,
    buckets: &mut BTreeMap<Name, Vec<usize>>,
    role: &Name,
) -> Result<(), Memory>
    ensures stays { KeepPlaces (slice_cmp nat_cmp) buckets.old buckets.new }
    ensures room { OnOk result ((other : Sequence ℕ) → bytes_eq role.now other ≡ true → 0 < room_in (slice_cmp nat_cmp) buckets.new other) }
{
    let key = role.clone()?;
    reserve(alloc, buckets, key)
}
