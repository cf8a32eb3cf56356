//! Parts of changes and records, as texts.

use crate::fault::Fault;
use au_base::{Cell, Column, ColumnKind, Name, Privilege, Stamp, TableName, Text};
use au_catalog::Outcomes;
use std::alloc::Global;

/// Adds a word behind a blank.
pub fn add(out: &mut String, word: &str) -> Result<(), Fault> {
    out.push_str(" ")?;
    out.push_str(word)?;
    Ok(())
}

/// Adds a number behind a blank.
pub fn add_number(out: &mut String, alloc: Global, number: u64) -> Result<(), Fault> {
    out.push_str(&format!(in alloc; " {number}")?)?;
    Ok(())
}

/// Adds the table: its owner, a point and its name.
pub fn add_table(out: &mut String, table: &TableName) -> Result<(), Fault> {
    add(out, table.owner.as_str())?;
    out.push_str(".")?;
    out.push_str(table.name.as_str())?;
    Ok(())
}

/// Adds names, or `none`.
pub fn add_names(out: &mut String, names: &[Name]) -> Result<(), Fault> {
    if names.is_empty() {
        return add(out, "none");
    }
    for name in names {
        add(out, name.as_str())?;
    }
    Ok(())
}

/// Adds the numbers of privileges, or `none`.
pub fn add_privileges(out: &mut String, alloc: Global, used: &[Privilege]) -> Result<(), Fault> {
    if used.is_empty() {
        return add(out, "none");
    }
    for privilege in used {
        add_number(out, alloc, u64::from(privilege.code()))?;
    }
    Ok(())
}

/// Adds the name, or `none`.
pub fn add_option(out: &mut String, name: &Option<Name>) -> Result<(), Fault> {
    match name {
        None => add(out, "none"),
        Some(name) => add(out, name.as_str()),
    }
}

/// Adds the text between quotes.
pub fn add_text(out: &mut String, text: &Text) -> Result<(), Fault> {
    add(out, "'")?;
    out.push_str(text.as_str())?;
    out.push_str("'")?;
    Ok(())
}

/// Adds the text between quotes, or `none`.
pub fn add_option_text(out: &mut String, text: &Option<Text>) -> Result<(), Fault> {
    match text {
        None => add(out, "none"),
        Some(text) => add_text(out, text),
    }
}

/// Adds the moment, or `none`.
pub fn add_moment(out: &mut String, alloc: Global, moment: Option<Stamp>) -> Result<(), Fault> {
    match moment {
        None => add(out, "none"),
        Some(Stamp(micros)) => add_number(out, alloc, micros),
    }
}

/// Adds `success`, `failure` or `both`.
pub fn add_outcomes(out: &mut String, outcomes: Outcomes) -> Result<(), Fault> {
    let word = match (outcomes.success, outcomes.failure) {
        (true, true) => "both",
        (true, false) => "success",
        (false, true) => "failure",
        (false, false) => "neither",
    };
    add(out, word)
}

/// Adds the column: its name, its kind, its size, and `not null` where it is so.
pub fn add_column(out: &mut String, alloc: Global, column: &Column) -> Result<(), Fault> {
    add(out, column.name.as_str())?;
    let kind = match column.kind {
        ColumnKind::Number => "number",
        ColumnKind::Text => "text",
        ColumnKind::Moment => "moment",
    };
    add(out, kind)?;
    add_number(out, alloc, u64::from(column.size))?;
    if column.not_null {
        add(out, "not null")?;
    }
    Ok(())
}

/// Adds the cell.
pub fn add_cell(out: &mut String, alloc: Global, cell: &Cell) -> Result<(), Fault> {
    match cell {
        Cell::Null => add(out, "null"),
        Cell::Num(number) => {
            out.push_str(&format!(in alloc; " {number}")?)?;
            Ok(())
        }
        Cell::Text(text) => add_text(out, text),
        Cell::Moment(micros) => {
            add(out, "moment")?;
            add_number(out, alloc, *micros)
        }
    }
}
