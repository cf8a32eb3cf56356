//! How CREATE AUDIT POLICY and DROP AUDIT POLICY are decided.
ghost use Rattle.std.specs.Prelude.{◌≡◌, ◌∷◌, [], not, IfOk, Option, None, option_map, unwrap_or};
ghost use Rattle.std.specs.List.{list_any};
ghost use Rattle.au_admin.specs.Policies.{DecidesCreatePolicy, DecidesDropPolicy, create_policy, drop_policy, dropping, has_absent_role, has_absent_table, is_absent, is_there, is_used};
ghost use Rattle.au_calls.specs.Settings.{lent};
ghost use Rattle.au_base.specs.Sameness.{same_table};
ghost use Rattle.au_base.specs.BuiltIn.{dual, trail};
ghost use Rattle.au_define.specs.Settings.{IsSorted, has_role as has_role_in, lent as lent_base};

use crate::looking::{has_policy, is_enabled};
use crate::parts::new_policy;
use au_base::built_in::ORA_MANDATORY;
use au_base::{Code, List, Memory, Name, TableName, TableReference, same_is_equal};
use au_calls::{
    AuditCase, AuditRights, Effect, changes_alone, decide_by, is_bad, is_wrong, may_not_audit,
    rights_of, used_by, wrong_code,
};
use au_define::{Case, has_role, has_table, is_full};
use au_entries::{Change, Decision};
use sql_ast::{ActionPart, CreatePolicy};
use std::alloc::Global;

/// What is decided of CREATE AUDIT POLICY.
pub fn create_policy(
    alloc: Global,
    case: &AuditCase<'_>,
    create: &CreatePolicy,
) -> Result<Decision, Memory>
    requires order { IsSorted case.now.case }
    ensures { IfOk result (DecidesCreatePolicy (lent case.now) create.now) }
{
    let rights = rights_of(alloc, case)?;
    create_policy_by(alloc, case, rights, create)
}

fn create_policy_by(
    alloc: Global,
    case: &AuditCase<'_>,
    rights: AuditRights,
    create: &CreatePolicy,
) -> Result<Decision, Memory>
    requires order { IsSorted case.now.case }
    ensures { IfOk result (λ decision. decision ≡ create_policy rights (lent case.now) create.now) }
{
    let absent = has_absent_table(alloc, case, create)?;
    let others = [
        (is_used(case, &create.policy), Code::POLICY_PRESENT),
        (absent, Code::NO_SUCH_TABLE),
        (has_absent_role(case, create), Code::NO_SUCH_ROLE),
        (is_bad(case.read), Code::BAD_CONDITION),
        (is_wrong(case.read), wrong_code(case.read)),
        (is_full(case.policies.len()), Code::TOO_MANY_OBJECTS),
    ];
    let used = used_by(alloc, rights)?;
    let changes = new_policy(alloc, case.case.user, create)?;
    let effect = changes_alone(alloc, changes);
    Ok(decide_by(alloc, may_not_audit(rights), &others, used, effect))
}

// A policy has the name, or it is that of what is mandatory.
fn is_used(case: &AuditCase<'_>, name: &Name) -> bool
    ensures { result ≡ is_used (lent case.now) name.now }
{
    has_policy(case, name) || name.as_str() == ORA_MANDATORY
}

// Some part names a table that isn't there.
fn has_absent_table(
    alloc: Global,
    case: &AuditCase<'_>,
    create: &CreatePolicy,
) -> Result<bool, Memory>
    requires order { IsSorted case.now.case }
    ensures { IfOk result (λ absent. absent ≡ has_absent_table (lent case.now) create.now) }
{
    match &create.actions {
        None => Ok(false),
        Some(parts) => some_absent(alloc, &case.case, parts.as_slice()),
    }
}

fn some_absent(alloc: Global, case: &Case<'_>, parts: &[ActionPart]) -> Result<bool, Memory>
    requires order { IsSorted case.now }
    ensures { IfOk result (λ absent. absent ≡ list_any (λ part. is_absent (lent_base case.now) part.table) parts.now) }
{
    for part in parts {
        if is_absent(alloc, case, &part.table)? {
            return Ok(true);
        }
    }
    Ok(false)
}

fn is_absent(alloc: Global, case: &Case<'_>, table: &Option<TableReference>) -> Result<bool, Memory>
    requires order { IsSorted case.now }
    ensures { IfOk result (λ absent. absent ≡ is_absent (lent_base case.now) table.now) }
{
    match table {
        None => Ok(false),
        Some(table) => {
            let table = table.resolved(alloc, case.user)?;
            Ok(!is_there(case, &table))
        }
    }
}

// The two built-in tables are always there.
fn is_there(case: &Case<'_>, table: &TableName) -> bool
    requires order { IsSorted case.now }
    ensures { result ≡ is_there (lent_base case.now) table.now }
{
    has_table(case, table) || is_dual(table) || is_trail(table)
}

fn is_dual(table: &TableName) -> bool
    ensures { result ≡ same_table table.now dual }
{
    same_is_equal();
    table.is_dual()
}

fn is_trail(table: &TableName) -> bool
    ensures { result ≡ same_table table.now trail }
{
    same_is_equal();
    table.is_trail()
}

// Some role that is named isn't there.
fn has_absent_role(case: &AuditCase<'_>, create: &CreatePolicy) -> bool
    requires order { IsSorted case.now.case }
    ensures { result ≡ has_absent_role (lent case.now) create.now }
{
    match &create.roles {
        None => false,
        Some(roles) => some_role_absent(&case.case, roles.as_slice()),
    }
}

fn some_role_absent(case: &Case<'_>, roles: &[Name]) -> bool
    requires order { IsSorted case.now }
    ensures { result ≡ list_any (λ role. not (has_role_in (lent_base case.now) role)) roles.now }
{
    roles.iter().any(|role| !has_role(case, role))
}

/// What is decided of DROP AUDIT POLICY of this policy.
pub fn drop_policy(alloc: Global, case: &AuditCase<'_>, policy: &Name) -> Result<Decision, Memory>
    ensures { IfOk result (DecidesDropPolicy (lent case.now) policy.now) }
{
    let rights = rights_of(alloc, case)?;
    drop_policy_by(alloc, case, rights, policy)
}

fn drop_policy_by(
    alloc: Global,
    case: &AuditCase<'_>,
    rights: AuditRights,
    policy: &Name,
) -> Result<Decision, Memory>
    ensures { IfOk result (λ decision. decision ≡ drop_policy rights (lent case.now) policy.now) }
{
    let others = [
        (!has_policy(case, policy), Code::NO_SUCH_POLICY),
        (is_enabled(case, policy), Code::POLICY_ENABLED),
    ];
    let used = used_by(alloc, rights)?;
    let effect = dropping(alloc, policy)?;
    Ok(decide_by(alloc, may_not_audit(rights), &others, used, effect))
}

// The policy is dropped, and the results of its condition that are kept are forgotten.
fn dropping(alloc: Global, policy: &Name) -> Result<Effect, Memory>
    ensures { IfOk result (λ effect. effect ≡ dropping policy.now) }
{
    let mut changes = List::new(alloc);
    changes.push(Change::PolicyGone(policy.clone()?))?;
    let mut forgets = List::new(alloc);
    forgets.push(policy.clone()?)?;
    Ok(Effect {
        changes,
        purge: None,
        forgets,
    })
}
