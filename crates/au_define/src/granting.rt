//! How GRANT and REVOKE are decided.
ghost use Rattle.std.specs.Prelude.{◌≡◌, ◌∷◌, ◌++◌, [], IfOk, map};
ghost use Rattle.std.specs.List.{filter, flat_map};
ghost use Rattle.au_base.specs.BuiltIn.{resolved_table};
ghost use Rattle.au_define.specs.Granting.{DecidesGrant, change_of, of_decided};
ghost use Rattle.au_define.specs.Settings.{IsSorted, has_role, has_table, has_user, lent};
ghost use Rattle.au_define.specs.descent.Named.{known_named, known_of_rights, known_on_table, roles_in};

use crate::case::Case;
use crate::looking::{has_role, has_table, has_user};
use au_base::{
    GrantStatement, List, Memory, Name, Right, TableName, TableReference, same_is_equal,
};
use au_entries::{Change, Decision};
use au_grants::GrantChange;
use au_priv::{Decided, Known, decide};
use std::alloc::Global;

/// What is decided of GRANT or REVOKE. The lists of what is there stand in order: the statement's
/// names are looked up in them, and of all names these alone are copied.
pub fn grant(alloc: Global, case: &Case<'_>, statement: &GrantStatement) -> Result<Decision, Memory>
    requires order { IsSorted case.now }
    ensures { IfOk result (DecidesGrant (lent case.now) statement.now) }
{
    same_is_equal();
    let known = known_named(alloc, case, statement)?;
    let decided = decide(alloc, case.grants, case.user, statement, &known)?;
    of_decided(alloc, decided)
}

fn of_decided(alloc: Global, decided: Decided) -> Result<Decision, Memory>
    ensures { IfOk result (λ decision. decision ≡ of_decided decided) }
{
    let Decided { code, used, grants } = decided;
    let changes = changes_of(alloc, grants.as_slice())?;
    Ok(Decision {
        code,
        used,
        changes,
        purge: None,
        forgets: List::new(alloc),
    })
}

fn changes_of(alloc: Global, grants: &[GrantChange]) -> Result<List<Change>, Memory>
    ensures { IfOk result (λ changes. changes ≡ map change_of grants.now) }
{
    let mut changes = List::new(alloc);
    for grant in grants {
        changes.push(change_of(grant)?)?;
    }
    Ok(changes)
}

fn change_of(grant: &GrantChange) -> Result<Change, Memory>
    ensures { IfOk result (λ change. change ≡ change_of grant.now) }
{
    match grant {
        GrantChange::UserGone(user) => Ok(Change::UserGone(user.clone()?)),
        GrantChange::RoleGone(role) => Ok(Change::RoleGone(role.clone()?)),
        GrantChange::SystemGrant(grantee, privilege, admin) => {
            Ok(Change::SysGrant(grantee.clone()?, *privilege, *admin))
        }
        GrantChange::SystemRevoke(grantee, privilege) => {
            Ok(Change::SysRevoke(grantee.clone()?, *privilege))
        }
        GrantChange::RoleGrant(grantee, role, admin) => {
            Ok(Change::RoleGrant(grantee.clone()?, role.clone()?, *admin))
        }
        GrantChange::RoleRevoke(grantee, role) => {
            Ok(Change::RoleRevoke(grantee.clone()?, role.clone()?))
        }
        GrantChange::ObjectGrant(grantee, table, action) => {
            Ok(Change::ObjGrant(grantee.clone()?, table.clone()?, *action))
        }
        GrantChange::ObjectRevoke(grantee, table, action) => {
            Ok(Change::ObjRevoke(grantee.clone()?, table.clone()?, *action))
        }
        GrantChange::TableGone(table) => Ok(Change::TableGone(table.clone()?)),
    }
}

fn copied(alloc: Global, names: &[Name]) -> Result<List<Name>, Memory>
    ensures { IfOk result (λ copy. copy ≡ names.now) }
{
    let mut copy = List::new(alloc);
    for name in names {
        copy.push(name.clone()?)?;
    }
    Ok(copy)
}

// What is there of the names that the statement names.
fn known_named(alloc: Global, case: &Case<'_>, statement: &GrantStatement) -> Result<Known, Memory>
    requires order { IsSorted case.now }
    ensures { IfOk result (λ known. known ≡ known_named (lent case.now) statement.now) }
{
    match statement {
        GrantStatement::Grant {
            rights,
            grantees,
            ..
        } => known_of_rights(alloc, case, rights.as_slice(), grantees.as_slice()),
        GrantStatement::Revoke { rights, grantees } => {
            known_of_rights(alloc, case, rights.as_slice(), grantees.as_slice())
        }
        GrantStatement::GrantObject {
            table,
            grantees,
            ..
        } => known_on_table(alloc, case, table, grantees.as_slice()),
        GrantStatement::RevokeObject {
            table,
            grantees,
            ..
        } => known_on_table(alloc, case, table, grantees.as_slice()),
    }
}

fn known_of_rights(
    alloc: Global,
    case: &Case<'_>,
    rights: &[Right],
    grantees: &[Name],
) -> Result<Known, Memory>
    requires order { IsSorted case.now }
    ensures { IfOk result (λ known. known ≡ known_of_rights (lent case.now) rights.now grantees.now) }
{
    let named = with_roles(copied(alloc, grantees)?, rights)?;
    Ok(Known {
        users: users_among(alloc, case, grantees)?,
        roles: roles_among(alloc, case, named.as_slice())?,
        tables: List::new(alloc),
    })
}

fn known_on_table(
    alloc: Global,
    case: &Case<'_>,
    table: &TableReference,
    grantees: &[Name],
) -> Result<Known, Memory>
    requires order { IsSorted case.now }
    ensures { IfOk result (λ known. known ≡ known_on_table (lent case.now) (resolved_table case.now.user.now table.now) grantees.now) }
{
    let table = table.resolved(alloc, case.user)?;
    Ok(Known {
        users: users_among(alloc, case, grantees)?,
        roles: roles_among(alloc, case, grantees)?,
        tables: table_if_there(alloc, case, table)?,
    })
}

// The names, and those of the roles that are among the rights.
fn with_roles(names: List<Name>, rights: &[Right]) -> Result<List<Name>, Memory>
    ensures { IfOk result (λ all. all ≡ names ++ flat_map roles_in rights.now) }
{
    let mut all = names;
    for right in rights {
        if let Right::Role(role) = right {
            all.push(role.clone()?)?;
        }
    }
    Ok(all)
}

fn users_among(alloc: Global, case: &Case<'_>, names: &[Name]) -> Result<List<Name>, Memory>
    requires order { IsSorted case.now }
    ensures { IfOk result (λ users. users ≡ filter (has_user (lent case.now)) names.now) }
{
    let mut users = List::new(alloc);
    for name in names {
        if has_user(case, name) {
            users.push(name.clone()?)?;
        }
    }
    Ok(users)
}

fn roles_among(alloc: Global, case: &Case<'_>, names: &[Name]) -> Result<List<Name>, Memory>
    requires order { IsSorted case.now }
    ensures { IfOk result (λ roles. roles ≡ filter (has_role (lent case.now)) names.now) }
{
    let mut roles = List::new(alloc);
    for name in names {
        if has_role(case, name) {
            roles.push(name.clone()?)?;
        }
    }
    Ok(roles)
}

fn table_if_there(
    alloc: Global,
    case: &Case<'_>,
    table: TableName,
) -> Result<List<TableName>, Memory>
    requires order { IsSorted case.now }
    ensures { IfOk result (λ tables. tables ≡ filter (has_table (lent case.now)) (table ∷ [])) }
{
    let mut tables = List::new(alloc);
    if has_table(case, &table) {
        tables.push(table)?;
    }
    Ok(tables)
}
