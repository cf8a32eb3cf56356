//! Tries the texts of what is kept: each line of standard input names a case, its fields parted by `|`,
//! and is written again with what came. In texts and names `\n` stands for LF, `\r` for CR and `\\` for a
//! backslash.
//!
//! - `record|KIND|SESSION|ENTRY|STATEMENT|MOMENT|USER|ACTION|SCHEMA|OBJECT|TEXT|USED|POLICIES|FGA|CODE`:
//!   from here on the trail has this record too; an empty field is one that the record hasn't, and lists
//!   have commas between their parts. What comes is the record's line, behind that of the columns
//! - `trail`: the trail as text
//! - `check|USERS|ROLES|TABLES|ROWS|POLICIES|FGA|RECORDS|INSTANCE|BYTES`: what a check says of these
//!   counts
#![tactic(auto)]

mod asking;
mod escapes;
mod fields;
mod records;

use au_base::List;
use au_entries::Record;
use std::io;
use trials_lines::Fault;

fn main(rt: HostRuntime) -> io::Result<()> {
    let mut trail: List<Record> = List::new(rt.alloc());
    for line in rt.lines(rt.alloc()) {
        let line = line?;
        if line.is_empty() || line.starts_with('#') {
            println!(rt; "{line}")?;
            continue;
        }
        match asking::answer(rt.alloc(), &mut trail, line.as_str()) {
            Ok(text) => println!(rt; "{line} = {text}")?,
            Err(Fault::Memory) => println!(rt; "{line}: out of memory")?,
            Err(Fault::NoCase) => println!(rt; "{line}: no such case")?,
        }
    }
    Ok(())
}
