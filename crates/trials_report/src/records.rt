//! The records of lines.

use crate::fields::{action, field, name, names, optional_name, optional_text, privileges, short};
use au_base::{Code, SessionNo, Stamp};
use au_entries::{Record, RecordKind};
use std::alloc::Global;
use trials_lines::{Fault, number};

/// The record of a line.
pub fn record_of(alloc: Global, line: &str) -> Result<Record, Fault> {
    Ok(Record {
        kind: kind(field(line, 1))?,
        session: SessionNo(number(field(line, 2))?),
        entry: short(field(line, 3))?,
        statement: short(field(line, 4))?,
        stamp: Stamp(number(field(line, 5))?),
        user: name(alloc, field(line, 6))?,
        action: action(field(line, 7))?,
        schema: optional_name(alloc, field(line, 8))?,
        object: optional_name(alloc, field(line, 9))?,
        sql: optional_text(alloc, field(line, 10))?,
        used: privileges(alloc, field(line, 11))?,
        policies: names(alloc, field(line, 12))?,
        fga: optional_name(alloc, field(line, 13))?,
        code: Code(short(field(line, 14))?),
    })
}

fn kind(text: &str) -> Result<RecordKind, Fault> {
    match text {
        "standard" => Ok(RecordKind::Standard),
        "fine-grained" => Ok(RecordKind::FineGrained),
        _ => Err(Fault::NoCase),
    }
}
