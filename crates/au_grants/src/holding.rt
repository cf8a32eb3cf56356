//! The first of several rights that a user holds.
ghost use Rattle.std.specs.Prelude.{◌≡◌, ◌≤◌, ◌<◌, ◌↔◌, IsTrue, length};
ghost use Rattle.au_base.specs.Limits.{GRANTS};
ghost use Rattle.au_grants.specs.declared.searching.TheConstants.{FEW_ROLES};
ghost use Rattle.au_grants.specs.Holding.{Holds};
ghost use Rattle.au_grants.specs.descent.Direct.{IsGranted};
ghost use Rattle.au_grants.specs.descent.Search.{IsFirstGrant, IsFirstOf, IsGivenAt, IsGivenBehind, IsGivenByRole, IsReach, right_at};

use crate::direct::{is_granted, is_grantee};
use crate::grants::Grants;
use crate::lone::lone_place;
use crate::right::Sought;
use crate::searching::{FEW_ROLES, end_of_grants, has_admin, reach, role_of};
use au_base::Name;
use au_base::limits::GRANTS;

/// Where the first of the rights stands that the user holds, or how many rights there are. The roles
/// that the user holds are searched once for all rights, and only where the first isn't granted
/// directly.
pub fn first_held(grants: &Grants, user: &Name, rights: &[Sought<'_>]) -> usize
    ensures { IsFirstOf (λ j. Holds grants.now user.now (right_at rights.now j)) (length rights.now) result }
{
    let direct = first_granted(grants, user, rights);
    first_by_role(grants, user, rights, direct)
}

// The first of the rights that is granted to the holder directly.
fn first_granted(grants: &Grants, holder: &Name, rights: &[Sought<'_>]) -> usize
    ensures { IsFirstOf (λ j. IsGranted grants.now holder.now (right_at rights.now j)) (length rights.now) result }
{
    for j in 0..rights.len() {
        if is_granted(grants, holder, rights[j]) {
            return j;
        }
    }
    rights.len()
}

// Most users hold no role, or roles that hold none, and most stores have few grants of roles: the
// search takes places for as many grants as there can be only where it has to.
fn first_by_role(grants: &Grants, user: &Name, rights: &[Sought<'_>], limit: usize) -> usize
    requires { limit ≤ length rights.now }
    ensures { IsFirstOf (λ j. IsGivenByRole grants.now user.now (right_at rights.now j)) limit result }
{
    if limit == 0 {
        return 0;
    }
    let roles = grants.role_grants();
    if !is_grantee(roles, user) {
        return limit;
    }
    if let Some(place) = lone_place(roles, user) {
        return first_found(grants, user, &[place], 1, rights, limit);
    }
    if roles.len() <= FEW_ROLES {
        first_by_search::<FEW_ROLES>(grants, user, rights, limit)
    } else {
        first_by_search::<GRANTS>(grants, user, rights, limit)
    }
}

fn first_by_search<const PLACES: usize>(
    grants: &Grants,
    user: &Name,
    rights: &[Sought<'_>],
    limit: usize,
) -> usize
    requires limit { limit ≤ length rights.now }
    requires few { length grants.now.role ≤ PLACES }
    requires places { PLACES ≤ GRANTS }
    ensures { IsFirstOf (λ j. IsGivenByRole grants.now user.now (right_at rights.now j)) limit result }
{
    let mut marks = [false; PLACES];
    let mut queue = [0; PLACES];
    let roles = grants.role_grants();
    let count = reach(roles, user, &mut marks[..roles.len()], &mut queue);
    first_found(grants, user, &queue, count, rights, limit)
}

// The first of the rights that a grant to the user or to a held role gives, of which a search has
// filled the queue.
fn first_found(
    grants: &Grants,
    user: &Name,
    queue: &[usize],
    count: usize,
    rights: &[Sought<'_>],
    limit: usize,
) -> usize
    requires limit { limit ≤ length rights.now }
    requires reach { IsReach grants.now.role user.now queue.now count }
    ensures { IsFirstOf (λ j. IsGivenByRole grants.now user.now (right_at rights.now j)) limit result }
{
    let mut first = limit;
    for k in 0..count {
        if first == 0 {
            return 0;
        }
        first = first_behind(grants, queue[k], rights, first);
    }
    first
}

// The first of the rights that a grant to the grantee of the one at the place gives.
fn first_behind(grants: &Grants, place: usize, rights: &[Sought<'_>], limit: usize) -> usize
    requires limit { limit ≤ length rights.now }
    requires first { IsFirstGrant grants.now.role place }
    ensures { IsFirstOf (λ j. IsGivenBehind grants.now place (right_at rights.now j)) limit result }
{
    let end = end_of_grants(grants.role_grants(), place);
    let mut first = limit;
    for at in place..end {
        first = first_given(grants, at, rights, first);
    }
    first
}

// The first of the rights that the grant of a role at the place gives.
fn first_given(grants: &Grants, at: usize, rights: &[Sought<'_>], limit: usize) -> usize
    requires limit { limit ≤ length rights.now }
    requires at { at < length grants.now.role }
    ensures { IsFirstOf (λ j. IsGivenAt grants.now at (right_at rights.now j)) limit result }
{
    for j in 0..limit {
        if gives(grants, at, rights[j]) {
            return j;
        }
    }
    limit
}

// Whether the grant of a role at the place gives the right: it is of the role that is looked for, or
// the right is granted to its role.
fn gives(grants: &Grants, at: usize, right: Sought<'_>) -> bool
    requires { at < length grants.now.role }
    ensures { IsTrue result ↔ IsGivenAt grants.now at right.entry }
{
    let roles = grants.role_grants();
    match right {
        Sought::Role(role) => role_of(roles, at).as_str() == role,
        Sought::RoleWithAdmin(role) => has_admin(roles, at) && role_of(roles, at).as_str() == role,
        _ => is_granted(grants, role_of(roles, at), right),
    }
}
