//! The calls.

use crate::tally::counted;
use au_base::Ask;
use au_gen::ask;
use std::alloc::Global;
use trials_lines::{Fault, number, said};

// The field of a line at a place from 0; the empty text past the last.
fn field(line: &str, place: usize) -> &str {
    line.split('|').nth(place).unwrap_or("")
}

/// What comes of a line.
pub fn answer(alloc: Global, line: &str) -> Result<String, Fault> {
    let seed = short(field(line, 1))?;
    let rows = short(field(line, 2))?;
    match field(line, 0) {
        "ask" => one(alloc, seed, rows, number(field(line, 3))?),
        "counts" => counts(alloc, seed, rows),
        _ => Err(Fault::NoCase),
    }
}

fn short(text: &str) -> Result<u32, Fault> {
    text.parse().map_err(|_| Fault::NoCase)
}

fn one(alloc: Global, seed: u32, rows: u32, place: u64) -> Result<String, Fault> {
    match ask(alloc, seed, rows, place)? {
        None => said(alloc, "none"),
        Some(Ask::Local) => said(alloc, "local"),
        Some(Ask::Sql(text)) => said(alloc, text.as_str()),
        Some(_) => said(alloc, "another ask"),
    }
}

fn counts(alloc: Global, seed: u32, rows: u32) -> Result<String, Fault> {
    let found = counted(alloc, seed, rows)?;
    let (asks, inserts) = (found.asks, found.inserts);
    let (commits, rollbacks) = (found.commits, found.rollbacks);
    Ok(format!(in alloc;
        "asks {asks}, inserts {inserts}, commits {commits}, rollbacks {rollbacks}"
    )?)
}
