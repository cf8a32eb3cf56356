//! Changes by the parts of what is kept that they change.
ghost use Rattle.std.specs.Prelude.{◌≡◌, ◌++◌, ◌∷◌, [], IfOk, OnOk};
ghost use Rattle.std.specs.List.{filter_map, flat_map};
ghost use Rattle.au_entries.specs.Changing.{grant_changes};
ghost use Rattle.au_kept.specs.Staging.{last_start, later_start, start_of, table_edit};

use crate::staged::TableEdit;
use au_base::Memory;
use au_entries::Change;
use au_grants::GrantChange;
use std::alloc::Global;

/// What the changes are for the grants, in their order.
pub(crate) fn grant_changes_of(
    alloc: Global,
    changes: &[Change],
) -> Result<Vec<GrantChange>, Memory>
    ensures { IfOk result (λ made. made.items ≡ flat_map grant_changes changes.now) }
{
    let mut made = Vec::new(alloc);
    for change in changes {
        push_grant_change(&mut made, change)?;
    }
    Ok(made)
}

// Adds what the change is for the grants, where it is something for them.
fn push_grant_change(made: &mut Vec<GrantChange>, change: &Change) -> Result<(), Memory>
    ensures { OnOk result (made.new.items ≡ made.old.items ++ grant_changes change.now) }
{
    match change {
        Change::UserGone(name) => made.push(GrantChange::UserGone(name.clone()?))?,
        Change::RoleGone(name) => made.push(GrantChange::RoleGone(name.clone()?))?,
        Change::SysGrant(name, right, admin) => {
            made.push(GrantChange::SystemGrant(name.clone()?, *right, *admin))?
        }
        Change::SysRevoke(name, right) => {
            made.push(GrantChange::SystemRevoke(name.clone()?, *right))?
        }
        Change::RoleGrant(name, role, admin) => {
            made.push(GrantChange::RoleGrant(name.clone()?, role.clone()?, *admin))?
        }
        Change::RoleRevoke(name, role) => {
            made.push(GrantChange::RoleRevoke(name.clone()?, role.clone()?))?
        }
        Change::ObjGrant(name, table, action) => {
            made.push(GrantChange::ObjectGrant(name.clone()?, table.clone()?, *action))?
        }
        Change::ObjRevoke(name, table, action) => {
            made.push(GrantChange::ObjectRevoke(name.clone()?, table.clone()?, *action))?
        }
        Change::TableGone(table) => made.push(GrantChange::TableGone(table.clone()?))?,
        _ => {}
    }
    Ok(())
}

/// What the changes are for the tables that are open for rows, in their order.
pub(crate) fn table_edits_of(alloc: Global, changes: &[Change]) -> Result<Vec<TableEdit>, Memory>
    ensures { IfOk result (λ edits. edits.items ≡ filter_map table_edit changes.now) }
{
    let mut edits = Vec::new(alloc);
    for change in changes {
        push_table_edit(&mut edits, change)?;
    }
    Ok(edits)
}

// Adds what the change is for the tables, where it is something for them.
fn push_table_edit(edits: &mut Vec<TableEdit>, change: &Change) -> Result<(), Memory>
    ensures { OnOk result (edits.new.items ≡ edits.old.items ++ filter_map table_edit (change.now ∷ [])) }
{
    match change {
        Change::Table(name, _, key) => edits.push(TableEdit::Open(name.clone()?, key.clone()?))?,
        Change::TableGone(name) => edits.push(TableEdit::Close(name.clone()?))?,
        _ => {}
    }
    Ok(())
}

/// The number of the last instance that the changes begin. `None` where they begin none.
pub(crate) fn last_start(changes: &[Change]) -> Option<u32>
    ensures { result ≡ last_start changes.now }
{
    let mut last = None;
    for change in changes {
        last = start_in(change, last);
    }
    last
}

// The number of the instance that the change begins, or else this one.
fn start_in(change: &Change, before: Option<u32>) -> Option<u32>
    ensures { result ≡ later_start (start_of change.now) before }
{
    match change {
        Change::Start(instance) => Some(*instance),
        _ => before,
    }
}
