//! What is kept in a store that nobody has used yet, as changes of nothing.
ghost use Rattle.std.specs.Prelude.{◌≡◌, ◌++◌, ◌∷◌, [], IfOk, OnOk, map};
ghost use Rattle.au_entries.specs.declared.change.Change.TheVariants.{Start};
ghost use Rattle.au_entries.specs.Imaging.{image_changes, policy_change, role_change, role_grant_change, system_change, user_change};
ghost use Rattle.au_opening.specs.Opening.{opening, opening_role_grants, opening_roles, opening_system, opening_users, policy_of_all, right_of_sys};

use crate::passwords::verifier;
use au_base::built_in::{AUDIT_ADMIN, AUDIT_VIEWER, P_ALL, SYS};
use au_base::{Action, List, Memory, Name, Privilege};
use au_entries::Change;
use std::alloc::Global;

/// What is kept in a new store, as changes of nothing: the user SYS with this password, the two roles
/// of auditing, all system privileges, and a policy of all actions that is enabled for nobody. There
/// are 25 of them.
pub fn opening_changes(alloc: Global, password: &[u8]) -> Result<List<Change>, Memory>
    ensures { IfOk result (λ changes. changes ≡ image_changes (opening password.now)) }
{
    let mut changes = List::new(alloc);
    push_user(alloc, &mut changes, password)?;
    push_roles(alloc, &mut changes)?;
    push_system(alloc, &mut changes)?;
    push_role_grants(alloc, &mut changes)?;
    push_policy(alloc, &mut changes)?;
    changes.push(Change::Start(0))?;
    Ok(changes)
}

fn push_user(alloc: Global, changes: &mut List<Change>, password: &[u8]) -> Result<(), Memory>
    ensures { OnOk result (changes.new ≡ changes.old ++ map user_change (opening_users password.now)) }
{
    changes.push(Change::User(Name::from_str(alloc, SYS)?, verifier(SYS, password)))?;
    Ok(())
}

fn push_roles(alloc: Global, changes: &mut List<Change>) -> Result<(), Memory>
    ensures { OnOk result (changes.new ≡ changes.old ++ map role_change opening_roles) }
{
    changes.push(Change::Role(Name::from_str(alloc, AUDIT_ADMIN)?))?;
    changes.push(Change::Role(Name::from_str(alloc, AUDIT_VIEWER)?))?;
    Ok(())
}

fn push_system(alloc: Global, changes: &mut List<Change>) -> Result<(), Memory>
    ensures { OnOk result (changes.new ≡ changes.old ++ map system_change opening_system) }
{
    let admin = Name::from_str(alloc, AUDIT_ADMIN)?;
    changes.push(Change::SysGrant(admin, Privilege::AuditSystem, false))?;
    push_rights(alloc, changes, &Privilege::EACH)?;
    Ok(())
}

// Adds the privileges, granted to SYS with admin option.
fn push_rights(
    alloc: Global,
    changes: &mut List<Change>,
    privileges: &[Privilege],
) -> Result<(), Memory>
    ensures { OnOk result (changes.new ≡ changes.old ++ map right_of_sys privileges.now) }
{
    for privilege in privileges {
        changes.push(Change::SysGrant(Name::from_str(alloc, SYS)?, *privilege, true))?;
    }
    Ok(())
}

fn push_role_grants(alloc: Global, changes: &mut List<Change>) -> Result<(), Memory>
    ensures { OnOk result (changes.new ≡ changes.old ++ map role_grant_change opening_role_grants) }
{
    let admin = Name::from_str(alloc, AUDIT_ADMIN)?;
    changes.push(Change::RoleGrant(Name::from_str(alloc, SYS)?, admin, true))?;
    let viewer = Name::from_str(alloc, AUDIT_VIEWER)?;
    changes.push(Change::RoleGrant(Name::from_str(alloc, SYS)?, viewer, true))?;
    Ok(())
}

fn push_policy(alloc: Global, changes: &mut List<Change>) -> Result<(), Memory>
    ensures { OnOk result (changes.new ≡ changes.old ++ policy_change policy_of_all ∷ []) }
{
    let mut actions = List::new(alloc);
    actions.push((Action::All, None))?;
    changes.push(Change::Policy {
        name: Name::from_str(alloc, P_ALL)?,
        privileges: List::new(alloc),
        actions,
        roles: List::new(alloc),
        when: None,
    })?;
    Ok(())
}
