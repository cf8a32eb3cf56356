//! Changes that are made with no memory.
ghost use Rattle.std.specs.Prelude.{◌≡◌, IfOk};
ghost use Rattle.au_grants.specs.descent.Boxing.{change_of};

use crate::change::GrantChange;
use crate::object_grant::ObjectGrant;
use crate::role_grant::RoleGrant;
use crate::system_grant::SystemGrant;
use au_base::{Action, Memory, Name, Privilege, TableName};
use std::alloc::Global;
use std::marker::Model;

/// A change of grants, whose new grant stands as it will in its list. Contracts see the change.
#[derive(Debug, Drop)]
pub struct Edit {
    pub change: BoxedChange,
}

impl Model for Edit {
    ghost use Rattle.au_grants.specs.declared.change.GrantChange.{GrantChange};
    ghost use Rattle.au_grants.specs.descent.Boxing.{change_of};

    ghost Value = { GrantChange };

    ghost view = { λ e. change_of e.change };
}

/// What changes grants. The variants are those of `GrantChange`; a new grant of three of them has its
/// box.
#[derive(Debug, Drop)]
pub enum BoxedChange {
    UserGone(Name),
    RoleGone(Name),
    SystemGrant(SystemGrant),
    SystemRevoke(Name, Privilege),
    RoleGrant(RoleGrant),
    RoleRevoke(Name, Name),
    ObjectGrant(ObjectGrant),
    ObjectRevoke(Name, TableName, Action),
    TableGone(TableName),
}

impl Edit {
    /// The change, with what it needs to be made.
    pub fn of(alloc: Global, change: &GrantChange) -> Result<Edit, Memory>
        ensures { IfOk result (λ edit. edit ≡ change.now) }
    {
        Ok(Edit {
            change: boxed(alloc, change)?,
        })
    }
}

fn boxed(alloc: Global, change: &GrantChange) -> Result<BoxedChange, Memory>
    ensures { IfOk result (λ boxed. change_of boxed ≡ change.now) }
{
    match change {
        GrantChange::UserGone(user) => Ok(BoxedChange::UserGone(user.clone()?)),
        GrantChange::RoleGone(role) => Ok(BoxedChange::RoleGone(role.clone()?)),
        GrantChange::SystemGrant(grantee, privilege, admin) => {
            let grantee = grantee.clone()?;
            Ok(BoxedChange::SystemGrant(SystemGrant::new(alloc, grantee, *privilege, *admin)?))
        }
        GrantChange::SystemRevoke(grantee, privilege) => {
            Ok(BoxedChange::SystemRevoke(grantee.clone()?, *privilege))
        }
        GrantChange::RoleGrant(grantee, role, admin) => {
            let (grantee, role) = (grantee.clone()?, role.clone()?);
            Ok(BoxedChange::RoleGrant(RoleGrant::new(alloc, grantee, role, *admin)?))
        }
        GrantChange::RoleRevoke(grantee, role) => {
            Ok(BoxedChange::RoleRevoke(grantee.clone()?, role.clone()?))
        }
        GrantChange::ObjectGrant(grantee, table, action) => {
            let (grantee, table) = (grantee.clone()?, table.clone()?);
            Ok(BoxedChange::ObjectGrant(ObjectGrant::new(alloc, grantee, table, *action)?))
        }
        GrantChange::ObjectRevoke(grantee, table, action) => {
            Ok(BoxedChange::ObjectRevoke(grantee.clone()?, table.clone()?, *action))
        }
        GrantChange::TableGone(table) => Ok(BoxedChange::TableGone(table.clone()?)),
    }
}
