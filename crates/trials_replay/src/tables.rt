//! Changes of tables, of their rows and of their fine-grained policies.

use crate::{field, parts};
use au_base::RowNo;
use au_entries::Change;
use std::alloc::Global;
use trials_lines::{Fault, name};

/// A table that is made.
pub fn table(alloc: Global, line: &str) -> Result<Change, Fault> {
    let table = parts::table(alloc, field(line, 1))?;
    let columns = parts::columns(alloc, field(line, 2))?;
    let key = parts::key(alloc, field(line, 3))?;
    Ok(Change::Table(table, columns, key))
}

/// A row that is put.
pub fn put(alloc: Global, line: &str) -> Result<Change, Fault> {
    let table = parts::table(alloc, field(line, 1))?;
    let row = row(field(line, 2))?;
    let cells = parts::cells(alloc, field(line, 3))?;
    Ok(Change::Put(table, row, cells))
}

/// A fine-grained policy that is put.
pub fn fga(alloc: Global, line: &str) -> Result<Change, Fault> {
    let table = parts::table(alloc, field(line, 1))?;
    let policy = name(alloc, field(line, 2))?;
    let columns = parts::names(alloc, field(line, 3))?;
    let condition = parts::condition(alloc, field(line, 4))?;
    Ok(Change::Fga {
        table,
        policy,
        condition,
        columns,
        all: false,
        types: 1,
        enabled: true,
    })
}

/// A table that is dropped, or a row or a fine-grained policy of it.
pub fn gone(alloc: Global, line: &str) -> Result<Change, Fault> {
    let table = parts::table(alloc, field(line, 1))?;
    match field(line, 0) {
        "table gone" => Ok(Change::TableGone(table)),
        "gone" => Ok(Change::Gone(table, row(field(line, 2))?)),
        _ => Ok(Change::FgaGone(table, name(alloc, field(line, 2))?)),
    }
}

fn row(text: &str) -> Result<RowNo, Fault> {
    Ok(RowNo(parts::short(text)?))
}
