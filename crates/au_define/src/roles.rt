//! How CREATE ROLE and DROP ROLE are decided.
ghost use Rattle.std.specs.Prelude.{◌≡◌, ◌∷◌, [], true, IfOk};
ghost use Rattle.au_define.specs.Roles.{DecidesCreateRole, DecidesDropRole, create_role, drop_role, has_no_room, is_audit_role};
ghost use Rattle.au_define.specs.Settings.{IsSorted, lent};
ghost use Rattle.au_entries.specs.declared.change.Change.{Change};

use crate::case::Case;
use crate::looking::{has_role, is_full, is_taken};
use crate::rules::{decide_by, needed, only};
use au_base::built_in::{AUDIT_ADMIN, AUDIT_VIEWER};
use au_base::limits::GRANTS;
use au_base::{Code, List, Memory, Name, Privilege};
use au_entries::{Change, Decision};
use std::alloc::Global;

/// What is decided of CREATE ROLE with this name.
pub fn create_role(alloc: Global, case: &Case<'_>, name: &Name) -> Result<Decision, Memory>
    requires order { IsSorted case.now }
    ensures { IfOk result (DecidesCreateRole (lent case.now) name.now) }
{
    let held = case
        .grants
        .holds_privilege(case.user, Privilege::CreateRole);
    create_role_by(alloc, case, held, name)
}

fn create_role_by(
    alloc: Global,
    case: &Case<'_>,
    held: bool,
    name: &Name,
) -> Result<Decision, Memory>
    requires order { IsSorted case.now }
    ensures { IfOk result (λ decision. decision ≡ create_role held (lent case.now) name.now) }
{
    let rights = [(!held, Code::PRIVILEGE_MISSING)];
    let others = [
        (is_taken(case, name), Code::ROLE_NAME_USED),
        (has_no_room(case), Code::TOO_MANY_OBJECTS),
    ];
    let used = needed(alloc, false, Privilege::CreateRole)?;
    let changes = new_role(alloc, case.user, name)?;
    Ok(decide_by(alloc, &rights, &others, used, changes))
}

// No room for one more role, or for the grant of it to its creator.
fn has_no_room(case: &Case<'_>) -> bool
    ensures { result ≡ has_no_room (lent case.now) }
{
    is_full(case.roles.len()) || GRANTS <= case.grants.count()
}

fn new_role(alloc: Global, creator: &Name, name: &Name) -> Result<List<Change>, Memory>
    ensures { IfOk result (λ changes. changes ≡ Change.Role name.now ∷ Change.RoleGrant creator.now name.now true ∷ []) }
{
    let mut changes = List::new(alloc);
    changes.push(Change::Role(name.clone()?))?;
    changes.push(Change::RoleGrant(creator.clone()?, name.clone()?, true))?;
    Ok(changes)
}

/// What is decided of DROP ROLE with this name.
pub fn drop_role(alloc: Global, case: &Case<'_>, name: &Name) -> Result<Decision, Memory>
    requires order { IsSorted case.now }
    ensures { IfOk result (DecidesDropRole (lent case.now) name.now) }
{
    let administered = case.grants.administers_role(case.user, name);
    let held = case
        .grants
        .holds_privilege(case.user, Privilege::DropAnyRole);
    drop_role_by(alloc, case, administered, held, name)
}

fn drop_role_by(
    alloc: Global,
    case: &Case<'_>,
    administered: bool,
    held: bool,
    name: &Name,
) -> Result<Decision, Memory>
    requires order { IsSorted case.now }
    ensures { IfOk result (λ decision. decision ≡ drop_role administered held (lent case.now) name.now) }
{
    let rights = [
        (!has_role(case, name), Code::NO_SUCH_ROLE),
        (is_audit_role(name), Code::PRIVILEGE_MISSING),
        (!administered && !held, Code::PRIVILEGE_MISSING),
    ];
    let used = needed(alloc, administered, Privilege::DropAnyRole)?;
    let changes = only(alloc, Change::RoleGone(name.clone()?))?;
    Ok(decide_by(alloc, &rights, &[], used, changes))
}

// One of the two roles of auditing, which stay.
fn is_audit_role(name: &Name) -> bool
    ensures { result ≡ is_audit_role name.now }
{
    name.as_str() == AUDIT_ADMIN || name.as_str() == AUDIT_VIEWER
}
