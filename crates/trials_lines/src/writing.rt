//! What came, as text.

use crate::fault::Fault;
use au_base::{Cell, moment_text};
use std::alloc::Global;
use std::str;

/// A text.
pub fn said(alloc: Global, text: &str) -> Result<String, Fault> {
    Ok(String::from_str(alloc, text)?)
}

/// A test.
pub fn yes_or_no(alloc: Global, test: bool) -> Result<String, Fault> {
    said(alloc, if test { "yes" } else { "no" })
}

/// A cell, its text in quotes and its moment as a text without.
pub fn cell_text(alloc: Global, cell: &Cell) -> Result<String, Fault> {
    match cell {
        Cell::Null => said(alloc, "NULL"),
        Cell::Num(number) => Ok(format!(in alloc; "{number}")?),
        Cell::Text(text) => {
            let text = text.as_str();
            Ok(format!(in alloc; "'{text}'")?)
        }
        Cell::Moment(moment) => said(alloc, str::from_utf8(&moment_text(*moment)).unwrap_or("?")),
    }
}
