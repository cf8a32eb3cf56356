//! Records of the trail as rows.
ghost use Rattle.std.specs.Prelude.{◌≡◌, ◌≤◌, ◌++◌, IfOk, OnOk, map, pos};
ghost use Rattle.std.specs.String.{string_bytes};
ghost use Rattle.au_base.specs.Cells.{text_cell};
ghost use Rattle.au_base.specs.Privileges.{name_of};
ghost use Rattle.au_audit.specs.TrailRows.{as_row, further, joined, kind_name, optional_cell};

use au_base::{Cell, Memory, Name, Privilege, Text};
use au_entries::{Record, RecordKind};
use std::alloc::Global;

/// The record as a row of UNIFIED_AUDIT_TRAIL, whose columns are AUDIT_TYPE, SESSIONID, ENTRY_ID,
/// STATEMENT_ID, EVENT_TIMESTAMP, DBUSERNAME, ACTION_NAME, OBJECT_SCHEMA, OBJECT_NAME, SQL_TEXT,
/// SYSTEM_PRIVILEGE_USED, UNIFIED_AUDIT_POLICIES, FGA_POLICY_NAME and RETURN_CODE. What the record
/// hasn't is NULL. The session's number has at most 18 digits.
pub fn as_row(alloc: Global, entry: &Record) -> Result<Vec<Cell>, Memory>
    requires { entry.now.session.0 ≤ 999_999_999_999_999_999 }
    ensures { IfOk result (λ cells. cells.items ≡ as_row entry.now) }
{
    Ok(vec![in alloc;
        word(alloc, kind_name(entry.kind))?,
        Cell::Num(entry.session.0 as i64),
        Cell::Num(i64::from(entry.entry)),
        Cell::Num(i64::from(entry.statement)),
        Cell::Moment(entry.stamp.0),
        name_cell(&entry.user)?,
        word(alloc, entry.action.name())?,
        optional_name(&entry.schema)?,
        optional_name(&entry.object)?,
        optional_text(&entry.sql)?,
        privileges_cell(alloc, entry.used.as_slice())?,
        names_cell(alloc, entry.policies.as_slice())?,
        optional_name(&entry.fga)?,
        Cell::Num(i64::from(entry.code.0)),
    ]?)
}

fn kind_name(kind: RecordKind) -> &'static str
    ensures { result.now ≡ kind_name kind }
{
    match kind {
        RecordKind::Standard => "Standard",
        RecordKind::FineGrained => "FineGrainedAudit",
    }
}

fn word(alloc: Global, text: &str) -> Result<Cell, Memory>
    ensures { IfOk result (λ cell. cell ≡ text_cell text.now) }
{
    Ok(Cell::from_text(Text::from_str(alloc, text)?))
}

fn name_cell(name: &Name) -> Result<Cell, Memory>
    ensures { IfOk result (λ cell. cell ≡ text_cell name.now) }
{
    Ok(Cell::from_text(name.as_text().clone()?))
}

fn optional_name(name: &Option<Name>) -> Result<Cell, Memory>
    ensures { IfOk result (λ cell. cell ≡ optional_cell name.now) }
{
    match name {
        None => Ok(Cell::Null),
        Some(name) => name_cell(name),
    }
}

fn optional_text(text: &Option<Text>) -> Result<Cell, Memory>
    ensures { IfOk result (λ cell. cell ≡ optional_cell text.now) }
{
    match text {
        None => Ok(Cell::Null),
        Some(text) => Ok(Cell::from_text(text.clone()?)),
    }
}

fn names_cell(alloc: Global, names: &[Name]) -> Result<Cell, Memory>
    ensures { IfOk result (λ cell. cell ≡ text_cell (joined names.now)) }
{
    let mut text = String::new(alloc);
    if let Some((first, others)) = names.split_first() {
        text.push_str(first.as_str())?;
        push_names(&mut text, others)?;
    }
    Ok(Cell::from_text(Text::from_string(text)))
}

// Adds the names, each behind a comma and a space.
fn push_names(text: &mut String, names: &[Name]) -> Result<(), Memory>
    ensures { OnOk result (string_bytes text.new ≡ string_bytes text.old ++ further names.now) }
{
    for name in names {
        text.push_str(", ")?;
        text.push_str(name.as_str())?;
    }
    Ok(())
}

fn privileges_cell(alloc: Global, privileges: &[Privilege]) -> Result<Cell, Memory>
    ensures { IfOk result (λ cell. cell ≡ text_cell (joined (map name_of privileges.now))) }
{
    let mut text = String::new(alloc);
    if let Some((first, others)) = privileges.split_first() {
        text.push_str(first.name())?;
        push_privileges(&mut text, others)?;
    }
    Ok(Cell::from_text(Text::from_string(text)))
}

// Adds the names of the privileges, each behind a comma and a space.
fn push_privileges(text: &mut String, privileges: &[Privilege]) -> Result<(), Memory>
    ensures { OnOk result (string_bytes text.new ≡ string_bytes text.old ++ further (map name_of privileges.now)) }
{
    for privilege in privileges {
        text.push_str(", ")?;
        text.push_str(privilege.name())?;
    }
    Ok(())
}
