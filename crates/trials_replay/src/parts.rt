//! Parts of changes, as lines have them.
ghost use Rattle.std.specs.Prelude.{◌≤◌, IfOk};

use au_base::{Action, Cell, Column, ColumnKind, List, Name, Privilege, TableName, Text};
use au_entries::{Enabled, Evaluate, Outcomes};
use std::alloc::Global;
use trials_lines::{Fault, name, number};

/// A number of at most so much.
fn up_to(text: &str, most: u64) -> Result<u64, Fault>
    ensures { IfOk result (λ number. number ≤ most) }
{
    let number = number(text)?;
    if number > most {
        return Err(Fault::NoCase);
    }
    Ok(number)
}

/// A number of 32 bits.
pub fn short(text: &str) -> Result<u32, Fault> {
    Ok(up_to(text, 4_294_967_295)? as u32)
}

/// A number of 8 bits.
pub fn byte(text: &str) -> Result<u8, Fault> {
    Ok(up_to(text, 255)? as u8)
}

/// A table, by its owner and its name with a point between them.
pub fn table(alloc: Global, text: &str) -> Result<TableName, Fault> {
    let (owner, table) = text.split_once('.').ok_or(Fault::NoCase)?;
    Ok(TableName {
        owner: name(alloc, owner)?,
        name: name(alloc, table)?,
    })
}

/// Names with commas between them. The empty text lists none.
pub fn names(alloc: Global, text: &str) -> Result<List<Name>, Fault> {
    let mut listed = List::new(alloc);
    if text.is_empty() {
        return Ok(listed);
    }
    for part in text.split(',') {
        listed.push(name(alloc, part)?)?;
    }
    Ok(listed)
}

/// A system privilege.
pub fn privilege(text: &str) -> Result<Privilege, Fault> {
    Privilege::from_name(text.as_bytes()).ok_or(Fault::NoCase)
}

/// System privileges with commas between them. The empty text lists none.
pub fn privileges(alloc: Global, text: &str) -> Result<List<Privilege>, Fault> {
    let mut listed = List::new(alloc);
    if text.is_empty() {
        return Ok(listed);
    }
    for part in text.split(',') {
        listed.push(privilege(part)?)?;
    }
    Ok(listed)
}

/// An action.
pub fn action(text: &str) -> Result<Action, Fault> {
    Action::from_name(text.as_bytes()).ok_or(Fault::NoCase)
}

/// Actions with commas between them, each on a table where one is named. The empty text lists none.
pub fn actions(alloc: Global, text: &str) -> Result<List<(Action, Option<TableName>)>, Fault> {
    let mut listed = List::new(alloc);
    if text.is_empty() {
        return Ok(listed);
    }
    for part in text.split(',') {
        listed.push(action_part(alloc, part)?)?;
    }
    Ok(listed)
}

fn action_part(alloc: Global, text: &str) -> Result<(Action, Option<TableName>), Fault> {
    match text.split_once(" ON ") {
        None => Ok((action(text)?, None)),
        Some((named, on)) => Ok((action(named)?, Some(table(alloc, on)?))),
    }
}

/// A fine-grained policy's condition, where the text isn't empty.
pub fn condition(alloc: Global, text: &str) -> Result<Option<Text>, Fault> {
    if text.is_empty() {
        return Ok(None);
    }
    Ok(Some(Text::from_str(alloc, text)?))
}

/// An audit policy's condition, evaluated at each statement, where the text isn't empty.
pub fn when(alloc: Global, text: &str) -> Result<Option<(Evaluate, Text)>, Fault> {
    match condition(alloc, text)? {
        None => Ok(None),
        Some(text) => Ok(Some((Evaluate::Statement, text))),
    }
}

/// For whom a policy is enabled: `off`, `all`, `by A,B` or `except A,B`, at all outcomes.
pub fn enabled(alloc: Global, text: &str) -> Result<Enabled, Fault> {
    match text.split_once(' ') {
        None if text == "off" => Ok(Enabled::Off),
        None if text == "all" => Ok(Enabled::Except(List::new(alloc), ALL)),
        Some(("by", users)) => by(alloc, users),
        Some(("except", users)) => Ok(Enabled::Except(names(alloc, users)?, ALL)),
        _ => Err(Fault::NoCase),
    }
}

fn by(alloc: Global, users: &str) -> Result<Enabled, Fault> {
    let mut listed = List::new(alloc);
    for part in users.split(',') {
        listed.push((name(alloc, part)?, ALL))?;
    }
    Ok(Enabled::By(listed))
}

// Both outcomes.
const ALL: Outcomes = Outcomes {
    success: true,
    failure: true,
};

/// Columns with commas between them. The empty text lists none.
pub fn columns(alloc: Global, text: &str) -> Result<List<Column>, Fault> {
    let mut listed = List::new(alloc);
    if text.is_empty() {
        return Ok(listed);
    }
    for part in text.split(',') {
        listed.push(column(alloc, part)?)?;
    }
    Ok(listed)
}

fn column(alloc: Global, text: &str) -> Result<Column, Fault> {
    let (column, rest) = text.split_once(' ').ok_or(Fault::NoCase)?;
    let (kind, rest) = rest.split_once(' ').ok_or(Fault::NoCase)?;
    let (size, not_null) = match rest.strip_suffix(" NOT NULL") {
        Some(size) => (size, true),
        None => (rest, false),
    };
    Ok(Column {
        name: name(alloc, column)?,
        kind: kind_of(kind)?,
        size: up_to(size, 65_535)? as u16,
        not_null,
    })
}

fn kind_of(text: &str) -> Result<ColumnKind, Fault> {
    match text {
        "NUMBER" => Ok(ColumnKind::Number),
        "TEXT" => Ok(ColumnKind::Text),
        "MOMENT" => Ok(ColumnKind::Moment),
        _ => Err(Fault::NoCase),
    }
}

/// The places of a key's columns, with commas between them. The empty text lists none.
pub fn key(alloc: Global, text: &str) -> Result<List<u32>, Fault> {
    let mut listed = List::new(alloc);
    if text.is_empty() {
        return Ok(listed);
    }
    for part in text.split(',') {
        listed.push(short(part)?)?;
    }
    Ok(listed)
}

/// Cells with commas between them. The empty text lists none.
pub fn cells(alloc: Global, text: &str) -> Result<List<Cell>, Fault> {
    let mut listed = List::new(alloc);
    if text.is_empty() {
        return Ok(listed);
    }
    for part in text.split(',') {
        listed.push(cell(alloc, part)?)?;
    }
    Ok(listed)
}

fn cell(alloc: Global, text: &str) -> Result<Cell, Fault> {
    if text == "''" {
        return Ok(Cell::Text(Text::from_str(alloc, "")?));
    }
    trials_lines::cell(alloc, text)
}
