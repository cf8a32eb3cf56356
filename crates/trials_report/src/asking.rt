//! The calls.

use crate::escapes::escaped;
use crate::fields::{field, short};
use crate::records;
use au_base::List;
use au_entries::Record;
use au_report::{Counts, check_text, trail_csv};
use std::alloc::Global;
use std::{slice, str};
use trials_lines::{Fault, number, said};

/// What comes of a line.
pub fn answer(alloc: Global, trail: &mut List<Record>, line: &str) -> Result<String, Fault> {
    match field(line, 0) {
        "record" => one(alloc, trail, line),
        "trail" => whole(alloc, trail),
        "check" => check(alloc, line),
        _ => Err(Fault::NoCase),
    }
}

fn one(alloc: Global, trail: &mut List<Record>, line: &str) -> Result<String, Fault> {
    let entry = records::record_of(alloc, line)?;
    let text = trail_csv(alloc, slice::from_ref(&entry))?;
    trail.push(entry)?;
    let text = str::from_utf8(text.as_slice()).map_err(|_| Fault::NoCase)?;
    match text.split_once('\n') {
        Some((_, behind)) => escaped(alloc, behind),
        None => said(alloc, "no line"),
    }
}

fn whole(alloc: Global, trail: &List<Record>) -> Result<String, Fault> {
    let text = trail_csv(alloc, trail.as_slice())?;
    escaped(
        alloc,
        str::from_utf8(text.as_slice()).map_err(|_| Fault::NoCase)?,
    )
}

fn check(alloc: Global, line: &str) -> Result<String, Fault> {
    let text = check_text(alloc, &counts_of(line)?)?;
    escaped(
        alloc,
        str::from_utf8(text.as_slice()).map_err(|_| Fault::NoCase)?,
    )
}

fn counts_of(line: &str) -> Result<Counts, Fault> {
    Ok(Counts {
        users: number(field(line, 1))?,
        roles: number(field(line, 2))?,
        tables: number(field(line, 3))?,
        rows: number(field(line, 4))?,
        policies: number(field(line, 5))?,
        fga: number(field(line, 6))?,
        records: number(field(line, 7))?,
        instance: short(field(line, 8))?,
        bytes: number(field(line, 9))?,
    })
}
