//! The place of a policy, put into the buckets of all that its parts name, which have room for it.
ghost use Rattle.std.specs.Prelude.{◌≡◌, ◌==◌, ◌||◌, ◌&&◌, ℕ, List as Sequence, true};
ghost use Rattle.std.specs.Cmp.Lexicographic.{slice_cmp};
ghost use Rattle.std.specs.List.{list_any};
ghost use Rattle.std.specs.Ordering.{nat_cmp};
ghost use Rattle.std.specs.Str.{bytes_eq};
ghost use Rattle.au_base.specs.declared.action.Action.{Action as AnyAction};
ghost use Rattle.au_base.specs.declared.privilege.Privilege.{Privilege as AnyPrivilege};
ghost use Rattle.au_base.specs.declared.table.TableName.{TableName as Table};
ghost use Rattle.au_base.specs.Actions as numbers;
ghost use Rattle.au_base.specs.Privileges as ranks;
ghost use Rattle.au_base.specs.Sameness.{same_action, same_privilege, same_table};
ghost use Rattle.au_pindex.specs.Buckets.{is_in_bucket};
ghost use Rattle.au_pindex.specs.descent.Rooms.{HasRoomFor, StillTake, takes_in};
ghost use Rattle.au_pindex.specs.descent.Adding.{AddsPolicy};
ghost use Rattle.au_pindex.specs.Indexing.{table_cmp};
ghost use Rattle.au_pindex.specs.Naming.{is_of_action, is_on_table};

use crate::bucketed::Bucketed;
use crate::buckets::join;
use au_base::{Action, Name, Privilege, TableName};
use au_entries::AuditPolicy;
use std::collections::BTreeMap;

/// Adds the place of the policy to the buckets of all that its parts name, once to each. It takes no
/// memory.
pub(crate) fn join_policy(buckets: &mut Bucketed, policy: &AuditPolicy, place: usize)
    requires room { HasRoomFor policy.now buckets.old }
    ensures { AddsPolicy true policy.now place buckets.old buckets.new }
{
    join_actions(
        &mut buckets.actions,
        &mut buckets.tables,
        policy.actions.as_slice(),
        place,
    );
    join_privileges(&mut buckets.privileges, policy.privileges.as_slice(), place);
    join_roles(&mut buckets.roles, policy.roles.as_slice(), place);
}

fn join_actions(
    actions: &mut BTreeMap<u8, Vec<usize>>,
    tables: &mut BTreeMap<TableName, Vec<usize>>,
    parts: &[(Action, Option<TableName>)],
    place: usize,
)
    requires room { (action : AnyAction) → list_any (is_of_action action) parts.now ≡ true → takes_in nat_cmp actions.old (numbers.code_of action) place ≡ true }
    requires on_tables { (table : Table) → list_any (is_on_table table) parts.now ≡ true → takes_in table_cmp tables.old table place ≡ true }
    ensures actions { (action : AnyAction) (at : ℕ) → is_in_bucket nat_cmp actions.new (numbers.code_of action) at ≡ ((list_any (is_of_action action) parts.now && (place == at)) || is_in_bucket nat_cmp actions.old (numbers.code_of action) at) }
    ensures tables { (table : Table) (at : ℕ) → is_in_bucket table_cmp tables.new table at ≡ ((list_any (is_on_table table) parts.now && (place == at)) || is_in_bucket table_cmp tables.old table at) }
{
    for part in parts {
        join_part(actions, tables, part, place);
    }
}

fn join_part(
    actions: &mut BTreeMap<u8, Vec<usize>>,
    tables: &mut BTreeMap<TableName, Vec<usize>>,
    part: &(Action, Option<TableName>),
    place: usize,
)
    requires room { (action : AnyAction) → is_of_action action part.now ≡ true → takes_in nat_cmp actions.old (numbers.code_of action) place ≡ true }
    requires on_tables { (table : Table) → is_on_table table part.now ≡ true → takes_in table_cmp tables.old table place ≡ true }
    ensures actions { (action : AnyAction) (at : ℕ) → is_in_bucket nat_cmp actions.new (numbers.code_of action) at ≡ ((is_of_action action part.now && (place == at)) || is_in_bucket nat_cmp actions.old (numbers.code_of action) at) }
    ensures tables { (table : Table) (at : ℕ) → is_in_bucket table_cmp tables.new table at ≡ ((is_on_table table part.now && (place == at)) || is_in_bucket table_cmp tables.old table at) }
    ensures rooms { StillTake nat_cmp place actions.old actions.new }
    ensures table_rooms { StillTake table_cmp place tables.old tables.new }
{
    match &part.1 {
        None => join_action(actions, part.0, place),
        Some(table) => join_table(tables, table, place),
    }
}

fn join_action(buckets: &mut BTreeMap<u8, Vec<usize>>, action: Action, place: usize)
    requires room { takes_in nat_cmp buckets.old (numbers.code_of action) place ≡ true }
    ensures joined { (other : AnyAction) (at : ℕ) → is_in_bucket nat_cmp buckets.new (numbers.code_of other) at ≡ ((same_action action other && (place == at)) || is_in_bucket nat_cmp buckets.old (numbers.code_of other) at) }
    ensures rooms { StillTake nat_cmp place buckets.old buckets.new }
{
    join(buckets, &action.code(), place);
}

fn join_table(buckets: &mut BTreeMap<TableName, Vec<usize>>, table: &TableName, place: usize)
    requires room { takes_in table_cmp buckets.old table.now place ≡ true }
    ensures joined { (other : Table) (at : ℕ) → is_in_bucket table_cmp buckets.new other at ≡ ((same_table table.now other && (place == at)) || is_in_bucket table_cmp buckets.old other at) }
    ensures rooms { StillTake table_cmp place buckets.old buckets.new }
{
    join(buckets, table, place);
}

fn join_privileges(buckets: &mut BTreeMap<u8, Vec<usize>>, privileges: &[Privilege], place: usize)
    requires room { (privilege : AnyPrivilege) → list_any (λ part. same_privilege part privilege) privileges.now ≡ true → takes_in nat_cmp buckets.old (ranks.code_of privilege) place ≡ true }
    ensures { (privilege : AnyPrivilege) (at : ℕ) → is_in_bucket nat_cmp buckets.new (ranks.code_of privilege) at ≡ ((list_any (λ part. same_privilege part privilege) privileges.now && (place == at)) || is_in_bucket nat_cmp buckets.old (ranks.code_of privilege) at) }
{
    for privilege in privileges {
        join_privilege(buckets, *privilege, place);
    }
}

fn join_privilege(buckets: &mut BTreeMap<u8, Vec<usize>>, privilege: Privilege, place: usize)
    requires room { takes_in nat_cmp buckets.old (ranks.code_of privilege) place ≡ true }
    ensures joined { (other : AnyPrivilege) (at : ℕ) → is_in_bucket nat_cmp buckets.new (ranks.code_of other) at ≡ ((same_privilege privilege other && (place == at)) || is_in_bucket nat_cmp buckets.old (ranks.code_of other) at) }
    ensures rooms { StillTake nat_cmp place buckets.old buckets.new }
{
    join(buckets, &privilege.code(), place);
}

fn join_roles(buckets: &mut BTreeMap<Name, Vec<usize>>, roles: &[Name], place: usize)
    requires room { (role : Sequence ℕ) → list_any (λ part. bytes_eq part role) roles.now ≡ true → takes_in (slice_cmp nat_cmp) buckets.old role place ≡ true }
    ensures { (role : Sequence ℕ) (at : ℕ) → is_in_bucket (slice_cmp nat_cmp) buckets.new role at ≡ ((list_any (λ part. bytes_eq part role) roles.now && (place == at)) || is_in_bucket (slice_cmp nat_cmp) buckets.old role at) }
{
    for role in roles {
        join_role(buckets, role, place);
    }
}

fn join_role(buckets: &mut BTreeMap<Name, Vec<usize>>, role: &Name, place: usize)
    requires room { takes_in (slice_cmp nat_cmp) buckets.old role.now place ≡ true }
    ensures joined { (other : Sequence ℕ) (at : ℕ) → is_in_bucket (slice_cmp nat_cmp) buckets.new other at ≡ ((bytes_eq role.now other && (place == at)) || is_in_bucket (slice_cmp nat_cmp) buckets.old other at) }
    ensures rooms { StillTake (slice_cmp nat_cmp) place buckets.old buckets.new }
{
    join(buckets, role, place);
}
