//! Changes, as texts.

use crate::fault::Fault;
use crate::parts::{
    add, add_cell, add_column, add_moment, add_names, add_number, add_option_text, add_outcomes,
    add_privileges, add_table, add_text,
};
use au_base::{Action, Cell, Column, Name, TableName, Text};
use au_catalog::{Change, Enabled, Evaluate, Outcomes};
use std::alloc::Global;

/// Adds the change: its tag's name, and its parts in the order of their bytes.
pub fn add_change(out: &mut String, alloc: Global, change: &Change) -> Result<(), Fault> {
    match change {
        Change::User(name, verifier) => add_user(out, alloc, name, verifier),
        Change::UserGone(name) => add_named(out, "UserGone", name),
        Change::Role(name) => add_named(out, "Role", name),
        Change::RoleGone(name) => add_named(out, "RoleGone", name),
        Change::SysGrant(..) | Change::SysRevoke(..) => add_system(out, alloc, change),
        Change::RoleGrant(..) | Change::RoleRevoke(..) => add_role(out, change),
        Change::ObjGrant(to, table, action) => {
            add_object(out, alloc, "ObjGrant", to, table, *action)
        }
        Change::ObjRevoke(from, table, action) => {
            add_object(out, alloc, "ObjRevoke", from, table, *action)
        }
        Change::Table(table, columns, key) => {
            add_created(out, alloc, table, columns.as_slice(), key.as_slice())
        }
        Change::TableGone(table) => {
            add(out, "TableGone")?;
            add_table(out, table)
        }
        Change::Put(..) | Change::Gone(..) => add_row(out, alloc, change),
        Change::Policy { .. } => add_policy(out, alloc, change),
        Change::PolicyGone(name) => add_named(out, "PolicyGone", name),
        Change::Enable(name, enabled) => {
            add_named(out, "Enable", name)?;
            add_enabled(out, enabled)
        }
        _ => add_other(out, alloc, change),
    }
}

fn add_other(out: &mut String, alloc: Global, change: &Change) -> Result<(), Fault> {
    match change {
        Change::Fga { .. } => add_fga(out, alloc, change),
        Change::FgaGone(table, policy) => {
            add(out, "FgaGone")?;
            add_table(out, table)?;
            add(out, policy.as_str())
        }
        Change::Archive(moment) => {
            add(out, "Archive")?;
            add_moment(out, alloc, *moment)
        }
        Change::Start(instance) => {
            add(out, "Start")?;
            add_number(out, alloc, u64::from(*instance))
        }
        _ => Ok(()),
    }
}

fn add_named(out: &mut String, tag: &str, name: &Name) -> Result<(), Fault> {
    add(out, tag)?;
    add(out, name.as_str())
}

fn add_user(
    out: &mut String,
    alloc: Global,
    name: &Name,
    verifier: &[u8; 32],
) -> Result<(), Fault> {
    add_named(out, "User", name)?;
    add(out, &hex::encode(alloc, verifier)?)
}

fn add_admin(out: &mut String, admin: bool) -> Result<(), Fault> {
    add(out, if admin { "admin" } else { "plain" })
}

fn add_system(out: &mut String, alloc: Global, change: &Change) -> Result<(), Fault> {
    match change {
        Change::SysGrant(to, privilege, admin) => {
            add_named(out, "SysGrant", to)?;
            add_number(out, alloc, u64::from(privilege.code()))?;
            add_admin(out, *admin)
        }
        Change::SysRevoke(from, privilege) => {
            add_named(out, "SysRevoke", from)?;
            add_number(out, alloc, u64::from(privilege.code()))
        }
        _ => Ok(()),
    }
}

fn add_role(out: &mut String, change: &Change) -> Result<(), Fault> {
    match change {
        Change::RoleGrant(to, role, admin) => {
            add_named(out, "RoleGrant", to)?;
            add(out, role.as_str())?;
            add_admin(out, *admin)
        }
        Change::RoleRevoke(from, role) => {
            add_named(out, "RoleRevoke", from)?;
            add(out, role.as_str())
        }
        _ => Ok(()),
    }
}

fn add_object(
    out: &mut String,
    alloc: Global,
    tag: &str,
    grantee: &Name,
    table: &TableName,
    action: Action,
) -> Result<(), Fault> {
    add_named(out, tag, grantee)?;
    add_table(out, table)?;
    add_number(out, alloc, u64::from(action.code()))
}

fn add_created(
    out: &mut String,
    alloc: Global,
    table: &TableName,
    columns: &[Column],
    key: &[u32],
) -> Result<(), Fault> {
    add(out, "Table")?;
    add_table(out, table)?;
    for column in columns {
        add_column(out, alloc, column)?;
    }
    add(out, "key")?;
    for place in key {
        add_number(out, alloc, u64::from(*place))?;
    }
    Ok(())
}

fn add_row(out: &mut String, alloc: Global, change: &Change) -> Result<(), Fault> {
    match change {
        Change::Put(table, row, cells) => {
            add(out, "Put")?;
            add_table(out, table)?;
            add_number(out, alloc, u64::from(row.0))?;
            add_cells(out, alloc, cells.as_slice())
        }
        Change::Gone(table, row) => {
            add(out, "Gone")?;
            add_table(out, table)?;
            add_number(out, alloc, u64::from(row.0))
        }
        _ => Ok(()),
    }
}

fn add_cells(out: &mut String, alloc: Global, cells: &[Cell]) -> Result<(), Fault> {
    for cell in cells {
        add_cell(out, alloc, cell)?;
    }
    Ok(())
}

fn add_policy(out: &mut String, alloc: Global, change: &Change) -> Result<(), Fault> {
    match change {
        Change::Policy {
            name,
            privileges,
            actions,
            roles,
            when,
        } => {
            add_named(out, "Policy", name)?;
            add(out, "privileges")?;
            add_privileges(out, alloc, privileges.as_slice())?;
            add(out, "actions")?;
            add_actions(out, alloc, actions.as_slice())?;
            add(out, "roles")?;
            add_names(out, roles.as_slice())?;
            add_when(out, when)
        }
        _ => Ok(()),
    }
}

fn add_actions(
    out: &mut String,
    alloc: Global,
    actions: &[(Action, Option<TableName>)],
) -> Result<(), Fault> {
    if actions.is_empty() {
        return add(out, "none");
    }
    for (action, table) in actions {
        add_number(out, alloc, u64::from(action.code()))?;
        if let Some(table) = table {
            add(out, "on")?;
            add_table(out, table)?;
        }
    }
    Ok(())
}

fn add_when(out: &mut String, when: &Option<(Evaluate, Text)>) -> Result<(), Fault> {
    add(out, "when")?;
    match when {
        None => add(out, "none"),
        Some((evaluate, text)) => {
            let word = match evaluate {
                Evaluate::Statement => "statement",
                Evaluate::Session => "session",
                Evaluate::Instance => "instance",
            };
            add(out, word)?;
            add_text(out, text)
        }
    }
}

fn add_enabled(out: &mut String, enabled: &Enabled) -> Result<(), Fault> {
    match enabled {
        Enabled::Off => add(out, "off"),
        Enabled::By(users) => {
            add(out, "by")?;
            add_users(out, users.as_slice())
        }
        Enabled::Except(names, outcomes) => {
            add(out, "except")?;
            add_names(out, names.as_slice())?;
            add(out, "at")?;
            add_outcomes(out, *outcomes)
        }
    }
}

fn add_users(out: &mut String, users: &[(Name, Outcomes)]) -> Result<(), Fault> {
    for (user, outcomes) in users {
        add(out, user.as_str())?;
        add_outcomes(out, *outcomes)?;
    }
    Ok(())
}

fn add_fga(out: &mut String, alloc: Global, change: &Change) -> Result<(), Fault> {
    match change {
        Change::Fga {
            table,
            policy,
            condition,
            columns,
            all,
            types,
            enabled,
        } => {
            add(out, "Fga")?;
            add_table(out, table)?;
            add(out, policy.as_str())?;
            add_option_text(out, condition)?;
            add(out, "columns")?;
            add_names(out, columns.as_slice())?;
            add(out, if *all { "all" } else { "any" })?;
            add_number(out, alloc, u64::from(*types))?;
            add(out, if *enabled { "enabled" } else { "disabled" })
        }
        _ => Ok(()),
    }
}
