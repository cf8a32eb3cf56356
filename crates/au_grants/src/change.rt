//! Changes of grants.
ghost use Rattle.std.specs.Prelude.{◌≡◌};

use au_base::{Action, Name, Privilege, TableName};
use std::alloc::AllocError;

/// A change of grants. The grantee stands first, and a truth value is the admin option. A new grant
/// stands in byte order among those that are there.
#[derive(Debug, Drop, PartialEq, Eq)]
pub enum GrantChange {
    /// The user is dropped: what was granted to it is gone.
    UserGone(Name),
    /// The role is dropped: what was granted to it, and its own grants, are gone.
    RoleGone(Name),
    /// A system privilege is granted. A grant that is there keeps its place and gets this admin
    /// option.
    SystemGrant(Name, Privilege, bool),
    /// A system privilege is revoked.
    SystemRevoke(Name, Privilege),
    /// A role is granted. A grant that is there keeps its place and gets this admin option.
    RoleGrant(Name, Name, bool),
    /// A role is revoked.
    RoleRevoke(Name, Name),
    /// An object privilege is granted. A grant that is there stays.
    ObjectGrant(Name, TableName, Action),
    /// An object privilege is revoked.
    ObjectRevoke(Name, TableName, Action),
    /// The table is dropped: the object privileges on it are gone.
    TableGone(TableName),
}

impl Clone for GrantChange {
    ghost is_clone = { λ change copy. copy ≡ change };

    fn clone(&self) -> Result<Self, AllocError> {
        match self {
            GrantChange::UserGone(user) => Ok(GrantChange::UserGone(user.clone()?)),
            GrantChange::RoleGone(role) => Ok(GrantChange::RoleGone(role.clone()?)),
            GrantChange::SystemGrant(grantee, privilege, admin) => {
                Ok(GrantChange::SystemGrant(grantee.clone()?, *privilege, *admin))
            }
            GrantChange::SystemRevoke(grantee, privilege) => {
                Ok(GrantChange::SystemRevoke(grantee.clone()?, *privilege))
            }
            GrantChange::RoleGrant(grantee, role, admin) => {
                Ok(GrantChange::RoleGrant(grantee.clone()?, role.clone()?, *admin))
            }
            GrantChange::RoleRevoke(grantee, role) => {
                Ok(GrantChange::RoleRevoke(grantee.clone()?, role.clone()?))
            }
            GrantChange::ObjectGrant(grantee, table, action) => {
                Ok(GrantChange::ObjectGrant(grantee.clone()?, table.clone()?, *action))
            }
            GrantChange::ObjectRevoke(grantee, table, action) => {
                Ok(GrantChange::ObjectRevoke(grantee.clone()?, table.clone()?, *action))
            }
            GrantChange::TableGone(table) => Ok(GrantChange::TableGone(table.clone()?)),
        }
    }
}
