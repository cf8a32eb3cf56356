//! What is granted directly after a few changes, none of which is made: the grants before them are
//! lent, and each question goes over the changes.
ghost use Rattle.std.specs.Prelude.{◌≡◌, ℕ, IsTrue, Some};
ghost use Rattle.std.specs.List.{list_any, slice_get};
ghost use Rattle.au_grants.specs.declared.change.GrantChange.{GrantChange};
ghost use Rattle.au_grants.specs.Changing.{applied_all};
ghost use Rattle.au_grants.specs.Holding.{grants_object, grants_privilege_as, grants_role_as};
ghost use Rattle.au_priv.specs.descent.Standing.{IsAside, object_after, privilege_after, role_after};

use au_base::{
    Action, Name, Privilege, TableName, is_same_action, is_same_privilege, is_same_table,
};
use au_grants::{GrantChange, Grants, has_object, has_privilege_as, has_role_as};

/// Whether the system privilege is granted to the grantee directly, and with admin option where that
/// is asked. The last change that is about both decides.
pub fn stands_privilege(
    before: &Grants,
    changes: &[GrantChange],
    grantee: &Name,
    privilege: Privilege,
    admin: bool,
) -> bool
    ensures { result ≡ list_any (grants_privilege_as grantee.now privilege admin) (applied_all changes.now before.now).system }
{
    let mut stands = has_privilege_as(before.system_grants(), grantee, privilege, admin);
    for change in changes {
        stands = privilege_after(grantee, privilege, admin, change, stands);
    }
    stands
}

/// The same of a role.
pub fn stands_role(
    before: &Grants,
    changes: &[GrantChange],
    grantee: &Name,
    role: &str,
    admin: bool,
) -> bool
    ensures { result ≡ list_any (grants_role_as grantee.now role.now admin) (applied_all changes.now before.now).role }
{
    let mut stands = has_role_as(before.role_grants(), grantee, role, admin);
    for change in changes {
        stands = role_after(grantee, role, admin, change, stands);
    }
    stands
}

/// Whether the object privilege is granted to the grantee directly.
pub fn stands_object(
    before: &Grants,
    changes: &[GrantChange],
    grantee: &Name,
    table: &TableName,
    action: Action,
) -> bool
    ensures { result ≡ list_any (grants_object grantee.now table.now action) (applied_all changes.now before.now).object }
{
    let mut stands = has_object(before.object_grants(), grantee, table, action);
    for change in changes {
        stands = object_after(grantee, table, action, change, stands);
    }
    stands
}

// Whether it is granted after the change, by whether it was before.
fn privilege_after(
    grantee: &Name,
    privilege: Privilege,
    admin: bool,
    change: &GrantChange,
    before: bool,
) -> bool
    ensures { result ≡ privilege_after grantee.now privilege admin change.now before }
{
    match change {
        GrantChange::SystemGrant(to, granted, option) => {
            if *grantee == *to && is_same_privilege(privilege, *granted) {
                return *option || !admin;
            }
            before
        }
        GrantChange::SystemRevoke(from, revoked) => {
            !(*grantee == *from && is_same_privilege(privilege, *revoked)) && before
        }
        GrantChange::UserGone(user) => *grantee != *user && before,
        GrantChange::RoleGone(role) => *grantee != *role && before,
        _ => before,
    }
}

fn role_after(grantee: &Name, role: &str, admin: bool, change: &GrantChange, before: bool) -> bool
    ensures { result ≡ role_after grantee.now role.now admin change.now before }
{
    match change {
        GrantChange::RoleGrant(to, granted, option) => {
            if *grantee == *to && role == granted.as_str() {
                return *option || !admin;
            }
            before
        }
        GrantChange::RoleRevoke(from, revoked) => {
            !(*grantee == *from && role == revoked.as_str()) && before
        }
        GrantChange::UserGone(user) => *grantee != *user && before,
        GrantChange::RoleGone(gone) => !(*grantee == *gone || role == gone.as_str()) && before,
        _ => before,
    }
}

fn object_after(
    grantee: &Name,
    table: &TableName,
    action: Action,
    change: &GrantChange,
    before: bool,
) -> bool
    ensures { result ≡ object_after grantee.now table.now action change.now before }
{
    match change {
        GrantChange::ObjectGrant(to, on, granted) => {
            *grantee == *to && is_same_table(table, on) && is_same_action(action, *granted)
                || before
        }
        GrantChange::ObjectRevoke(from, on, revoked) => {
            !(*grantee == *from && is_same_table(table, on) && is_same_action(action, *revoked))
                && before
        }
        GrantChange::UserGone(user) => *grantee != *user && before,
        GrantChange::RoleGone(role) => *grantee != *role && before,
        GrantChange::TableGone(gone) => !is_same_table(table, gone) && before,
        _ => before,
    }
}

/// Whether all changes are found to be aside of the ways from the role to the grantee, so that the
/// role holds the grantee after them exactly where it does before.
pub fn are_aside(before: &Grants, changes: &[GrantChange], role: &Name, grantee: &Name) -> bool
    ensures { IsTrue result → (k : ℕ) (change : GrantChange) → slice_get changes.now k ≡ Some change → IsAside before.now.role role.now grantee.now change }
{
    for change in changes {
        if !is_aside(before, change, role, grantee) {
            return false;
        }
    }
    true
}

// A grant to the grantee, or of the role, is aside without a search.
fn is_aside(before: &Grants, change: &GrantChange, role: &Name, grantee: &Name) -> bool
    ensures { IsTrue result → IsAside before.now.role role.now grantee.now change.now }
{
    match change {
        GrantChange::RoleGrant(to, granted, _) => {
            *granted == *role || *to == *grantee || !before.closes_circle(to, role)
        }
        GrantChange::RoleRevoke(..) | GrantChange::UserGone(_) | GrantChange::RoleGone(_) => false,
        _ => true,
    }
}
