//! Users whose roles hold no role: nothing is to be searched for them.
ghost use Rattle.std.specs.Prelude.{◌≡◌, ◌∷◌, [], IfSome, IsTrue, false};
ghost use Rattle.std.specs.List.{list_any};
ghost use Rattle.au_grants.specs.Changing.{role_to};
ghost use Rattle.au_grants.specs.Order.{is_in_order, role_before};
ghost use Rattle.au_grants.specs.Rights.{IsRoleGranted, Name as Bytes};
ghost use Rattle.au_grants.specs.descent.Search.{IsFirstGrant, IsReach, grantee_at};

use crate::direct::is_grantee;
use crate::places::first_role_place;
use crate::role_grant::RoleGrant;
use crate::searching::{end_of_grants, grantee_of, role_of};
use au_base::Name;

/// The place of the first grant of a role to the user, where there is one and none of the roles that
/// are granted to the user is a grantee itself: all that a search finds. It takes no memory, and the
/// time of halving the grants once for each of the user's.
pub fn lone_place(roles: &[RoleGrant], user: &Name) -> Option<usize>
    requires order { IsTrue (is_in_order role_before roles.now) }
    ensures { IfSome result (λ place. IsReach roles.now user.now (place ∷ []) 1) }
{
    let place = first_role_place(roles, user);
    if place == roles.len() {
        return None;
    }
    if grantee_of(roles, place) != user {
        return None;
    }
    if leads_on(roles, place) {
        return None;
    }
    Some(place)
}

// Whether a role that is granted to the grantee of the grant at the place is a grantee itself.
fn leads_on(roles: &[RoleGrant], place: usize) -> bool
    requires order { IsTrue (is_in_order role_before roles.now) }
    requires first { IsFirstGrant roles.now place }
    ensures { result ≡ false → (role : Bytes) → IsRoleGranted roles.now (grantee_at roles.now place) role → list_any (role_to role) roles.now ≡ false }
{
    let end = end_of_grants(roles, place);
    for at in place..end {
        if is_grantee(roles, role_of(roles, at)) {
            return true;
        }
    }
    false
}
