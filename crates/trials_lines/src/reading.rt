//! Names, columns and cells as lines write them.

use crate::fault::Fault;
use au_base::{Cell, Column, ColumnKind, List, Name, Text};
use std::alloc::Global;

/// A name.
pub fn name(alloc: Global, text: &str) -> Result<Name, Fault> {
    Name::make(alloc, text.as_bytes())?.ok_or(Fault::NoCase)
}

/// A number.
pub fn number(text: &str) -> Result<u64, Fault> {
    text.parse().map_err(|_| Fault::NoCase)
}

/// Columns with commas between them, each a name, a space and a kind: `NUMBER`, `TEXT` or `MOMENT`.
pub fn columns(alloc: Global, text: &str) -> Result<List<Column>, Fault> {
    let mut listed = List::new(alloc);
    for part in text.split(',') {
        listed.push(column(alloc, part)?)?;
    }
    Ok(listed)
}

fn column(alloc: Global, text: &str) -> Result<Column, Fault> {
    let (column, kind) = text.split_once(' ').ok_or(Fault::NoCase)?;
    let kind = kind_of(kind)?;
    Ok(Column {
        name: name(alloc, column)?,
        kind,
        size: 18,
        not_null: false,
    })
}

fn kind_of(text: &str) -> Result<ColumnKind, Fault> {
    match text {
        "NUMBER" => Ok(ColumnKind::Number),
        "TEXT" => Ok(ColumnKind::Text),
        "MOMENT" => Ok(ColumnKind::Moment),
        _ => Err(Fault::NoCase),
    }
}

/// Cells with commas between them.
pub fn cells(alloc: Global, text: &str) -> Result<List<Cell>, Fault> {
    let mut listed = List::new(alloc);
    for part in text.split(',') {
        listed.push(cell(alloc, part)?)?;
    }
    Ok(listed)
}

/// A cell: `NULL`, `@` and the microseconds of a moment, a text in quotes, or a number.
pub fn cell(alloc: Global, text: &str) -> Result<Cell, Fault> {
    if text == "NULL" {
        return Ok(Cell::Null);
    }
    if let Some(moment) = text.strip_prefix('@') {
        return Ok(Cell::Moment(number(moment)?));
    }
    if let Some(quoted) = text.strip_prefix('\'') {
        let text = Text::from_str(alloc, quoted.strip_suffix('\'').unwrap_or(quoted))?;
        return Ok(Cell::from_text(text));
    }
    Ok(Cell::Num(text.parse().map_err(|_| Fault::NoCase)?))
}
