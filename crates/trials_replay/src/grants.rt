//! Changes of grants.

use crate::{field, parts};
use au_entries::Change;
use au_grants::GrantChange;
use std::alloc::Global;
use trials_lines::{Fault, name};

/// A system privilege that is granted or revoked.
pub fn system(alloc: Global, line: &str) -> Result<Change, Fault> {
    let grantee = name(alloc, field(line, 1))?;
    let privilege = parts::privilege(field(line, 2))?;
    if field(line, 0) == "system grant" {
        return Ok(Change::SysGrant(grantee, privilege, false));
    }
    Ok(Change::SysRevoke(grantee, privilege))
}

/// A role that is granted or revoked.
pub fn role(alloc: Global, line: &str) -> Result<Change, Fault> {
    let grantee = name(alloc, field(line, 1))?;
    let role = name(alloc, field(line, 2))?;
    if field(line, 0) == "role grant" {
        return Ok(Change::RoleGrant(grantee, role, false));
    }
    Ok(Change::RoleRevoke(grantee, role))
}

/// An object privilege that is granted or revoked.
pub fn object(alloc: Global, line: &str) -> Result<Change, Fault> {
    let grantee = name(alloc, field(line, 1))?;
    let table = parts::table(alloc, field(line, 2))?;
    let action = parts::action(field(line, 3))?;
    if field(line, 0) == "object grant" {
        return Ok(Change::ObjGrant(grantee, table, action));
    }
    Ok(Change::ObjRevoke(grantee, table, action))
}

/// What the change is of grants, if it is something.
pub fn grant_change(change: &Change) -> Result<Option<GrantChange>, Fault> {
    match change {
        Change::UserGone(name) => Ok(Some(GrantChange::UserGone(name.clone()?))),
        Change::RoleGone(name) => Ok(Some(GrantChange::RoleGone(name.clone()?))),
        Change::TableGone(table) => Ok(Some(GrantChange::TableGone(table.clone()?))),
        Change::SysGrant(name, privilege, admin) => Ok(Some(GrantChange::SystemGrant(
            name.clone()?,
            *privilege,
            *admin,
        ))),
        Change::RoleGrant(name, role, admin) => Ok(Some(GrantChange::RoleGrant(
            name.clone()?,
            role.clone()?,
            *admin,
        ))),
        Change::ObjGrant(name, table, action) => Ok(Some(GrantChange::ObjectGrant(
            name.clone()?,
            table.clone()?,
            *action,
        ))),
        _ => revoke(change),
    }
}

fn revoke(change: &Change) -> Result<Option<GrantChange>, Fault> {
    match change {
        Change::SysRevoke(name, privilege) => {
            let name = name.clone()?;
            Ok(Some(GrantChange::SystemRevoke(name, *privilege)))
        }
        Change::RoleRevoke(name, role) => {
            let (name, role) = (name.clone()?, role.clone()?);
            Ok(Some(GrantChange::RoleRevoke(name, role)))
        }
        Change::ObjRevoke(name, table, action) => {
            let (name, table) = (name.clone()?, table.clone()?);
            Ok(Some(GrantChange::ObjectRevoke(name, table, *action)))
        }
        _ => Ok(None),
    }
}
