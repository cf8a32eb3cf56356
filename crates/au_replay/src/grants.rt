//! Changes of grants.
ghost use Rattle.std.specs.Prelude.{◌≡◌, ◌↔◌, Bool, IfOk, IsTrue};
ghost use Rattle.au_base.specs.declared.action.Action.{Action as AnyAction};
ghost use Rattle.au_base.specs.declared.privilege.Privilege.{Privilege as AnyPrivilege};
ghost use Rattle.au_entries.specs.declared.change.Change.TheVariants as change;
ghost use Rattle.au_grants.specs.Order.{is_in_order, object_before, role_before, system_before};
ghost use Rattle.au_grants.specs.Rights.{IsHolder};
ghost use Rattle.au_replay.specs.Sights.{Goes, IsSorted, grants_of, shown};

use crate::finding::has_table;
use crate::sight::{GrantsSeen, Sight};
use crate::users::{has_grantee, has_role};
use au_base::{Action, Memory, Name, Privilege, TableName};
use au_grants::{
    ObjectGrant, RoleGrant, SystemGrant, has_object, has_privilege, has_role as is_role_granted,
};
use std::alloc::Global;

impl<'a> GrantsSeen<'a> {
    /// The grants of system privileges, in order.
    pub fn system_grants(&self) -> &'a [SystemGrant]
        ensures value { result.now ≡ (grants_of self.now).system }
        ensures order { IsTrue (is_in_order system_before result.now) }
    {
        match self {
            GrantsSeen::Held(grants) => grants.system_grants(),
            GrantsSeen::Draft(draft) => draft.system_grants(),
        }
    }

    /// The grants of roles, in order.
    pub fn role_grants(&self) -> &'a [RoleGrant]
        ensures value { result.now ≡ (grants_of self.now).role }
        ensures order { IsTrue (is_in_order role_before result.now) }
    {
        match self {
            GrantsSeen::Held(grants) => grants.role_grants(),
            GrantsSeen::Draft(draft) => draft.role_grants(),
        }
    }

    /// The grants of object privileges, in order.
    pub fn object_grants(&self) -> &'a [ObjectGrant]
        ensures value { result.now ≡ (grants_of self.now).object }
        ensures order { IsTrue (is_in_order object_before result.now) }
    {
        match self {
            GrantsSeen::Held(grants) => grants.object_grants(),
            GrantsSeen::Draft(draft) => draft.object_grants(),
        }
    }

    /// Whether a grant of the role to the grantee would close a circle: the role is the grantee, or
    /// holds it.
    pub fn closes_circle(&self, alloc: Global, grantee: &Name, role: &Name) -> Result<bool, Memory>
        ensures { IfOk result (λ closes. IsTrue closes ↔ IsHolder (grants_of self.now).role role.now grantee.now) }
    {
        match self {
            GrantsSeen::Held(grants) => Ok(grants.closes_circle(grantee, role)),
            GrantsSeen::Draft(draft) => draft.closes_circle(alloc, grantee, role),
        }
    }
}

/// Whether the system privilege may be granted: the grantee is there.
pub fn sys_grant_goes_on(sight: &Sight<'_>, grantee: &Name) -> bool
    requires order { IsSorted sight.now }
    ensures { (admin : Bool) (privilege : AnyPrivilege) → IsTrue result ↔ Goes sight.now (change.SysGrant grantee.now privilege admin) }
{
    has_grantee(sight, grantee)
}

/// Whether the system privilege may be revoked: it is granted.
pub fn sys_revoke_goes_on(sight: &Sight<'_>, grantee: &Name, privilege: Privilege) -> bool
    ensures { IsTrue result ↔ Goes sight.now (change.SysRevoke grantee.now privilege) }
{
    has_privilege(sight.grants.system_grants(), grantee, privilege)
}

/// Whether the role may be granted: the grantee and the role are there, and the grant closes no
/// circle.
pub fn role_grant_goes_on(
    alloc: Global,
    sight: &Sight<'_>,
    grantee: &Name,
    role: &Name,
) -> Result<bool, Memory>
    requires order { IsSorted sight.now }
    ensures { IfOk result (λ goes. (admin : Bool) → IsTrue goes ↔ Goes sight.now (change.RoleGrant grantee.now role.now admin)) }
{
    if !has_grantee(sight, grantee) {
        return Ok(false);
    }
    if !has_role(sight, role) {
        return Ok(false);
    }
    let closes = sight.grants.closes_circle(alloc, grantee, role)?;
    Ok(!closes)
}

/// Whether the role may be revoked: it is granted.
pub fn role_revoke_goes_on(sight: &Sight<'_>, grantee: &Name, role: &Name) -> bool
    ensures { IsTrue result ↔ Goes sight.now (change.RoleRevoke grantee.now role.now) }
{
    is_role_granted(sight.grants.role_grants(), grantee, role.as_str())
}

/// Whether an object privilege may be granted: the grantee and the table are there.
pub fn obj_grant_goes_on(sight: &Sight<'_>, grantee: &Name, table: &TableName) -> bool
    requires order { IsSorted sight.now }
    ensures { (action : AnyAction) → IsTrue result ↔ Goes sight.now (change.ObjGrant grantee.now table.now action) }
{
    has_grantee(sight, grantee) && has_table(sight.tables, table)
}

/// Whether the object privilege may be revoked: it is granted.
pub fn obj_revoke_goes_on(
    sight: &Sight<'_>,
    grantee: &Name,
    table: &TableName,
    action: Action,
) -> bool
    ensures { IsTrue result ↔ Goes sight.now (change.ObjRevoke grantee.now table.now action) }
{
    has_object(sight.grants.object_grants(), grantee, table, action)
}
