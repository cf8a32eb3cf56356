//! How AUDIT and NOAUDIT are decided.
ghost use Rattle.std.specs.Prelude.{◌≡◌, IfOk, Ok, Option};
ghost use Rattle.au_admin.specs.Enabling.{DecidesAudit, DecidesNoaudit, audit, audit_makes, enabling, is_refused, noaudit, noaudit_makes, users_in, users_of};
ghost use Rattle.au_calls.specs.Settings.{lent};
ghost use Rattle.au_admin.specs.Looking.{has_stranger};
ghost use Rattle.au_define.specs.Rules.{Tells};
ghost use Rattle.au_define.specs.Settings.{IsSorted};

use crate::looking::{enablement_of, has_policy, has_stranger};
use crate::sameness::is_same_enabled;
use au_audit::{audited, noaudited};
use au_base::{Code, List, Memory, Name};
use au_calls::{
    AuditCase, AuditRights, changes_alone, decide_by, may_not_audit, rights_of, used_by,
};
use au_entries::{Change, Decision, Enabled};
use sql_ast::{Audit, AuditedUsers};
use std::alloc::Global;

/// What is decided of AUDIT.
pub fn audit(alloc: Global, case: &AuditCase<'_>, statement: &Audit) -> Result<Decision, Memory>
    requires order { IsSorted case.now.case }
    ensures { IfOk result (DecidesAudit (lent case.now) statement.now) }
{
    let rights = rights_of(alloc, case)?;
    let standing = enablement_of(case, &statement.policy)?;
    let made = audited(alloc, &standing, &statement.users, &statement.whenever)?;
    let same = is_same(&made, &standing);
    audit_by(alloc, case, rights, same, statement, made)
}

fn audit_by(
    alloc: Global,
    case: &AuditCase<'_>,
    rights: AuditRights,
    same: bool,
    statement: &Audit,
    made: Result<Enabled, Code>,
) -> Result<Decision, Memory>
    requires order { IsSorted case.now.case }
    requires made { made ≡ audit_makes (lent case.now) statement.now }
    ensures { IfOk result (λ decision. decision ≡ audit rights same (lent case.now) statement.now) }
{
    let others = [
        (!has_policy(case, &statement.policy), Code::NO_SUCH_POLICY),
        (names_stranger(case, &statement.users), Code::NO_SUCH_USER),
        (is_refused(&made), Code::OTHER_MODE),
    ];
    let used = used_by(alloc, rights)?;
    let changes = enabling(alloc, same, &statement.policy, made)?;
    let effect = changes_alone(alloc, changes);
    Ok(decide_by(alloc, may_not_audit(rights), &others, used, effect))
}

/// What is decided of NOAUDIT of this policy, for all users or for these.
pub fn noaudit(
    alloc: Global,
    case: &AuditCase<'_>,
    policy: &Name,
    users: &Option<List<Name>>,
) -> Result<Decision, Memory>
    requires order { IsSorted case.now.case }
    ensures { IfOk result (DecidesNoaudit (lent case.now) policy.now users.now) }
{
    let rights = rights_of(alloc, case)?;
    let standing = enablement_of(case, policy)?;
    let made = noaudited(alloc, &standing, users)?;
    let same = is_same(&made, &standing);
    noaudit_by(alloc, case, rights, same, policy, users, made)
}

fn noaudit_by(
    alloc: Global,
    case: &AuditCase<'_>,
    rights: AuditRights,
    same: bool,
    policy: &Name,
    users: &Option<List<Name>>,
    made: Result<Enabled, Code>,
) -> Result<Decision, Memory>
    requires order { IsSorted case.now.case }
    requires made { made ≡ noaudit_makes (lent case.now) policy.now users.now }
    ensures { IfOk result (λ decision. decision ≡ noaudit rights same (lent case.now) policy.now users.now) }
{
    let others = [
        (!has_policy(case, policy), Code::NO_SUCH_POLICY),
        (lists_stranger(case, users), Code::NO_SUCH_USER),
        (is_refused(&made), Code::NOT_ENABLED_SO),
    ];
    let used = used_by(alloc, rights)?;
    let changes = enabling(alloc, same, policy, made)?;
    // The results of its condition that are kept stay.
    let keeping = changes_alone(alloc, changes);
    Ok(decide_by(alloc, may_not_audit(rights), &others, used, keeping))
}

// Some of the users that AUDIT names isn't there.
fn names_stranger(case: &AuditCase<'_>, users: &Option<AuditedUsers>) -> bool
    requires order { IsSorted case.now.case }
    ensures { result ≡ has_stranger (lent case.now) (users_of users.now) }
{
    match users {
        None => false,
        Some(AuditedUsers::By(users)) => has_stranger(case, users.as_slice()),
        Some(AuditedUsers::Except(users)) => has_stranger(case, users.as_slice()),
    }
}

// Some of the users that NOAUDIT names isn't there.
fn lists_stranger(case: &AuditCase<'_>, users: &Option<List<Name>>) -> bool
    requires order { IsSorted case.now.case }
    ensures { result ≡ has_stranger (lent case.now) (users_in users.now) }
{
    match users {
        None => false,
        Some(users) => has_stranger(case, users.as_slice()),
    }
}

fn is_refused(made: &Result<Enabled, Code>) -> bool
    ensures { result ≡ is_refused made.now }
{
    match made {
        Ok(_) => false,
        Err(_) => true,
    }
}

// What is made of the enablement is the one that stands.
fn is_same(made: &Result<Enabled, Code>, standing: &Enabled) -> bool
    ensures { Tells result (made.now ≡ Ok standing.now) }
{
    match made {
        Ok(made) => is_same_enabled(made, standing),
        Err(_) => false,
    }
}

// The enablement that is made as a change, unless it is the one that stands.
fn enabling(
    alloc: Global,
    same: bool,
    policy: &Name,
    made: Result<Enabled, Code>,
) -> Result<List<Change>, Memory>
    ensures { IfOk result (λ changes. changes ≡ enabling same policy.now made) }
{
    match made {
        Ok(made) => unless_same(alloc, same, policy, made),
        Err(_) => Ok(List::new(alloc)),
    }
}

fn unless_same(
    alloc: Global,
    same: bool,
    policy: &Name,
    made: Enabled,
) -> Result<List<Change>, Memory>
    ensures { IfOk result (λ changes. changes ≡ enabling same policy.now (Ok made)) }
{
    let mut changes = List::new(alloc);
    if !same {
        changes.push(Change::Enable(policy.clone()?, made))?;
    }
    Ok(changes)
}
