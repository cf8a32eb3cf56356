//! Lines that ask about columns, cells and conditions by themselves.

use crate::trees::{fga_tree, policy_tree};
use crate::{field, parts};
use au_base::List;
use au_entries::Table;
use au_replay::{fits, is_table};
use std::alloc::Global;
use trials_lines::{Fault, yes_or_no};

/// What comes of a line that asks about columns, cells or a condition.
pub fn asked(alloc: Global, line: &str) -> Result<String, Fault> {
    match field(line, 0) {
        "fits" => {
            let columns = parts::columns(alloc, field(line, 1))?;
            let cells = parts::cells(alloc, field(line, 2))?;
            yes_or_no(alloc, fits(columns.as_slice(), cells.as_slice()))
        }
        "shape" => {
            let columns = parts::columns(alloc, field(line, 1))?;
            let key = parts::key(alloc, field(line, 2))?;
            yes_or_no(alloc, is_table(columns.as_slice(), key.as_slice()))
        }
        "condition" => yes_or_no(alloc, is_condition(alloc, line)?),
        _ => Err(Fault::NoCase),
    }
}

fn is_condition(alloc: Global, line: &str) -> Result<bool, Fault> {
    let text = field(line, 1).as_bytes();
    if field(line, 2).is_empty() {
        return Ok(policy_tree(alloc, text)?.is_some());
    }
    Ok(fga_tree(alloc, &table(alloc, line)?, text)?.is_some())
}

// The table of a condition.
fn table(alloc: Global, line: &str) -> Result<Table, Fault> {
    let name = parts::table(alloc, &format!(in alloc; "SYS.{}", field(line, 2))?)?;
    let columns = parts::columns(alloc, field(line, 3))?;
    Ok(Table {
        name,
        columns,
        key: List::new(alloc),
    })
}
