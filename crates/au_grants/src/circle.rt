//! Circles of roles.
ghost use Rattle.std.specs.Prelude.{◌≡◌, ◌≤◌, ◌<◌, ◌↔◌, IfOk, IsTrue, length};
ghost use Rattle.au_grants.specs.Order.{is_in_order, role_before};
ghost use Rattle.au_grants.specs.Rights.{HoldsRole, IsHolder, IsRoleGranted};
ghost use Rattle.au_grants.specs.descent.Search.{IsFirstGrant, IsReach, grantee_at, role_at};

use crate::direct::is_grantee;
use crate::lone::lone_place;
use crate::role_grant::RoleGrant;
use crate::searching::{end_of_grants, reach, role_of};
use au_base::{Memory, Name};
use std::alloc::Global;

/// Whether a grant of the role to the grantee would close a circle.
pub fn is_circle(
    alloc: Global,
    roles: &[RoleGrant],
    grantee: &Name,
    role: &Name,
) -> Result<bool, Memory>
    requires order { IsTrue (is_in_order role_before roles.now) }
    ensures { IfOk result (λ closes. IsTrue closes ↔ IsHolder roles.now role.now grantee.now) }
{
    if *grantee == *role {
        return Ok(true);
    }
    Ok(is_held(alloc, roles, role, grantee)?)
}

fn is_held(alloc: Global, roles: &[RoleGrant], user: &Name, role: &Name) -> Result<bool, Memory>
    requires order { IsTrue (is_in_order role_before roles.now) }
    ensures { IfOk result (λ held. IsTrue held ↔ HoldsRole roles.now user.now role.now) }
{
    if !is_grantee(roles, user) {
        return Ok(false);
    }
    if let Some(place) = lone_place(roles, user) {
        return Ok(is_granted_to_some(roles, user, &[place], 1, role.as_str()));
    }
    let mut marks = Vec::new(alloc);
    marks.resize(roles.len(), false)?;
    let mut queue = Vec::new(alloc);
    queue.resize(roles.len(), 0)?;
    let count = reach(roles, user, marks.as_mut_slice(), queue.as_mut_slice());
    Ok(is_granted_to_some(roles, user, queue.as_slice(), count, role.as_str()))
}

/// Whether the role is granted to the grantee of some grant that the search found.
pub fn is_granted_to_some(
    roles: &[RoleGrant],
    user: &Name,
    queue: &[usize],
    count: usize,
    role: &str,
) -> bool
    requires order { IsTrue (is_in_order role_before roles.now) }
    requires reach { IsReach roles.now user.now queue.now count }
    ensures { IsTrue result ↔ HoldsRole roles.now user.now role.now }
{
    for k in 0..count {
        if is_granted_from(roles, queue[k], role) {
            return true;
        }
    }
    false
}

// Whether the role is granted to the grantee of the grant at the place, the first to that grantee.
fn is_granted_from(roles: &[RoleGrant], place: usize, role: &str) -> bool
    requires order { IsTrue (is_in_order role_before roles.now) }
    requires first { IsFirstGrant roles.now place }
    ensures { IsTrue result ↔ IsRoleGranted roles.now (grantee_at roles.now place) role.now }
{
    let end = end_of_grants(roles, place);
    for at in place..end {
        if grants_role_at(roles, at, role) {
            return true;
        }
    }
    false
}

fn grants_role_at(roles: &[RoleGrant], at: usize, role: &str) -> bool
    requires { at < length roles.now }
    ensures { IsTrue result ↔ (role_at roles.now at ≡ role.now) }
{
    role_of(roles, at).as_str() == role
}
