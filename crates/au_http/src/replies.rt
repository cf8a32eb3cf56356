//! What clients are told, as JSON.
ghost use Rattle.std.specs.Prelude.{◌≡◌, IfOk, map};
ghost use Rattle.serde_json.specs.Data.{array};
ghost use Rattle.serde_json.specs.View.{view, items_of};
ghost use Rattle.au_http.specs.Replies.{cell_data, columns_data, members_data, moment_data, reply_data, reply_text, row_data, rows_data, said_text};

use au_base::{Cell, List, Memory, Reply, Said, Text, moment_text};
use serde_json::{Value, json};
use std::alloc::{AllocError, Global};

/// The body where the disk failed.
pub const DISK_FAULT: &str = "{\"fault\":\"disk\"}";

/// The body where the journal has no room.
pub const FULL_FAULT: &str = "{\"fault\":\"full\"}";

/// The body where there was no memory.
pub const MEMORY_FAULT: &str = "{\"fault\":\"memory\"}";

/// What is said as JSON: the text of the reply, or that of the fault.
pub fn said_json(alloc: Global, said: &Said) -> Result<Text, Memory>
    ensures { IfOk result (λ text. text ≡ said_text said.now) }
{
    match said {
        Said::Replied(reply) => reply_json(alloc, reply),
        Said::Disk => Text::from_str(alloc, DISK_FAULT),
        Said::Full { .. } => Text::from_str(alloc, FULL_FAULT),
        Said::Memory => Text::from_str(alloc, MEMORY_FAULT),
    }
}

/// A reply as compact JSON, with the members `code`, `columns`, `count` and `rows` (RFC 8259).
pub fn reply_json(alloc: Global, reply: &Reply) -> Result<Text, Memory>
    ensures { IfOk result (λ text. text ≡ reply_text reply.now) }
{
    let value = reply_value(alloc, reply)?;
    Ok(Text::from_string(value.to_string(alloc)?))
}

fn reply_value(alloc: Global, reply: &Reply) -> Result<Value, Memory>
    ensures { IfOk result (λ value. view value ≡ reply_data reply.now) }
{
    let columns = columns_value(alloc, reply.columns.as_slice())?;
    let rows = rows_value(alloc, reply.rows.as_slice())?;
    Ok(object_value(alloc, reply.code.0, columns, reply.count, rows)?)
}

fn object_value(
    alloc: Global,
    code: u32,
    columns: Value,
    count: u64,
    rows: Value,
) -> Result<Value, AllocError>
    ensures { IfOk result (λ value. view value ≡ members_data code (view columns) count (view rows)) }
{
    json!(in alloc; {"code": code, "columns": columns, "count": count, "rows": rows})
}

fn columns_value(alloc: Global, names: &[Text]) -> Result<Value, Memory>
    ensures { IfOk result (λ value. view value ≡ columns_data names.now) }
{
    let mut items = Vec::with_capacity(alloc, names.len())?;
    for name in names {
        items.push(Value::try_from_str(alloc, name.as_str())?)?;
    }
    Ok(Value::Array(items))
}

fn rows_value(alloc: Global, rows: &[List<Cell>]) -> Result<Value, Memory>
    ensures { IfOk result (λ value. view value ≡ rows_data rows.now) }
{
    let mut items = Vec::with_capacity(alloc, rows.len())?;
    for row in rows {
        items.push(row_value(alloc, row.as_slice())?)?;
    }
    Ok(Value::Array(items))
}

fn row_value(alloc: Global, cells: &[Cell]) -> Result<Value, Memory>
    ensures { IfOk result (λ value. view value ≡ row_data cells.now) }
{
    let mut items = Vec::with_capacity(alloc, cells.len())?;
    for cell in cells {
        items.push(cell_value(alloc, cell)?)?;
    }
    Ok(Value::Array(items))
}

fn cell_value(alloc: Global, cell: &Cell) -> Result<Value, Memory>
    ensures { IfOk result (λ value. view value ≡ cell_data cell.now) }
{
    match cell {
        Cell::Null => Ok(Value::Null),
        Cell::Num(number) => Ok(Value::from(*number)),
        Cell::Text(text) => Ok(Value::try_from_str(alloc, text.as_str())?),
        Cell::Moment(moment) => moment_value(alloc, *moment),
    }
}

fn moment_value(alloc: Global, moment: u64) -> Result<Value, Memory>
    ensures { IfOk result (λ value. view value ≡ moment_data moment) }
{
    let text = Text::from_ascii(alloc, &moment_text(moment))?;
    Ok(Value::String(text.into_string()?))
}
