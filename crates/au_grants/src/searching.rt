//! The search for the roles that a user holds. It follows each grant of a role once, and nests no
//! call for a role.
ghost use Rattle.std.specs.Prelude.{◌≡◌, ◌≤◌, ◌<◌, IsTrue, false, length, true};
ghost use Rattle.au_grants.specs.Order.{is_in_order, role_before};
ghost use Rattle.au_grants.specs.Rights.{IsRoleGranted, Name as Bytes};
ghost use Rattle.au_grants.specs.descent.Search.{EndAt, IsFirstGrant, IsReach, IsSearch, IsSeen, WentOn, admin_at, grantee_at, mark_at, role_at};

use crate::places::first_role_place;
use crate::role_grant::RoleGrant;
use au_base::Name;

/// So many grants of roles are few: a search over them takes places for as many, and over more it
/// takes places for as many as there can be.
pub const FEW_ROLES: usize = 1_000;

/// Puts into the queue the places of the first grants of roles to the user and to each role that
/// the user holds, and gives how many there are. What the marks and the queue held is gone.
pub fn reach(roles: &[RoleGrant], user: &Name, marks: &mut [bool], queue: &mut [usize]) -> usize
    requires order { IsTrue (is_in_order role_before roles.now) }
    requires marks { length marks.old ≡ length roles.now }
    requires queue { length roles.now ≤ length queue.old }
    ensures reach { IsReach roles.now user.now queue.new result }
    ensures length { length queue.new ≡ length queue.old }
{
    marks.fill(false);
    let mut count = visit(roles, user, marks, queue, 0);
    for done in 0..roles.len() {
        if done == count {
            return count;
        }
        count = visit_granted(roles, queue[done], marks, queue, count);
    }
    count
}

// Visits each role that is granted to the grantee of the grant at the place.
fn visit_granted(
    roles: &[RoleGrant],
    place: usize,
    marks: &mut [bool],
    queue: &mut [usize],
    count: usize,
) -> usize
    requires order { IsTrue (is_in_order role_before roles.now) }
    requires first { IsFirstGrant roles.now place }
    requires search { IsSearch roles.now marks.old queue.old count }
    ensures went_on { WentOn roles.now (IsRoleGranted roles.now (grantee_at roles.now place)) marks.old queue.old count marks.new queue.new result }
    ensures seen { (role : Bytes) → IsRoleGranted roles.now (grantee_at roles.now place) role → IsSeen roles.now marks.new role }
{
    let end = end_of_grants(roles, place);
    let mut found = count;
    for at in place..end {
        found = visit(roles, role_of(roles, at), marks, queue, found);
    }
    found
}

// Marks the first grant to the name and puts its place into the queue, unless it is marked or
// there is none.
fn visit(
    roles: &[RoleGrant],
    name: &Name,
    marks: &mut [bool],
    queue: &mut [usize],
    count: usize,
) -> usize
    requires order { IsTrue (is_in_order role_before roles.now) }
    requires search { IsSearch roles.now marks.old queue.old count }
    ensures went_on { WentOn roles.now (λ other. other ≡ name.now) marks.old queue.old count marks.new queue.new result }
    ensures seen { IsSeen roles.now marks.new name.now }
{
    let place = first_role_place(roles, name);
    if place == roles.len() {
        return count;
    }
    if grantee_of(roles, place) != name {
        return count;
    }
    if marks[place] {
        return count;
    }
    put(roles, place, marks, queue, count)
}

// Marks the first grant to a name and puts its place into the queue.
fn put(
    roles: &[RoleGrant],
    place: usize,
    marks: &mut [bool],
    queue: &mut [usize],
    count: usize,
) -> usize
    requires first { IsFirstGrant roles.now place }
    requires new { mark_at marks.old place ≡ false }
    requires room { count < length queue.old }
    requires search { IsSearch roles.now marks.old queue.old count }
    ensures went_on { WentOn roles.now (λ other. other ≡ grantee_at roles.now place) marks.old queue.old count marks.new queue.new result }
    ensures marked { mark_at marks.new place ≡ true }
{
    marks[place] = true;
    queue[count] = place;
    count + 1
}

/// Where the grants to the grantee of the grant at the place end.
pub fn end_of_grants(roles: &[RoleGrant], place: usize) -> usize
    requires order { IsTrue (is_in_order role_before roles.now) }
    requires within { place < length roles.now }
    ensures { EndAt roles.now place result }
{
    let grantee = grantee_of(roles, place);
    for at in place..roles.len() {
        if grantee_of(roles, at) != grantee {
            return at;
        }
    }
    roles.len()
}

/// The grantee of the grant at the place.
pub fn grantee_of<'a>(roles: &'a [RoleGrant], place: usize) -> &'a Name
    requires { place < length roles.now }
    ensures { result.now ≡ grantee_at roles.now place }
{
    roles[place].grantee()
}

/// The role of the grant at the place.
pub fn role_of<'a>(roles: &'a [RoleGrant], place: usize) -> &'a Name
    requires { place < length roles.now }
    ensures { result.now ≡ role_at roles.now place }
{
    roles[place].role()
}

/// Whether the grant at the place has the admin option.
pub fn has_admin(roles: &[RoleGrant], place: usize) -> bool
    requires { place < length roles.now }
    ensures { result ≡ admin_at roles.now place }
{
    roles[place].has_admin()
}
