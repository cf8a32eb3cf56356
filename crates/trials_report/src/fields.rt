//! The fields of a line.

use crate::escapes::unescaped;
use au_base::{Action, List, Name, Privilege, Text};
use std::alloc::Global;
use trials_lines::Fault;

/// The field of a line at a place from 0; the empty text past the last.
pub fn field(line: &str, place: usize) -> &str {
    line.split('|').nth(place).unwrap_or("")
}

/// A number of 32 bits.
pub fn short(text: &str) -> Result<u32, Fault> {
    text.parse().map_err(|_| Fault::NoCase)
}

/// A name.
pub fn name(alloc: Global, text: &str) -> Result<Name, Fault> {
    let text = unescaped(alloc, text)?;
    Name::make(alloc, text.as_bytes())?.ok_or(Fault::NoCase)
}

/// A name, where there is one.
pub fn optional_name(alloc: Global, text: &str) -> Result<Option<Name>, Fault> {
    if text.is_empty() {
        return Ok(None);
    }
    Ok(Some(name(alloc, text)?))
}

/// A text, where there is one.
pub fn optional_text(alloc: Global, text: &str) -> Result<Option<Text>, Fault> {
    if text.is_empty() {
        return Ok(None);
    }
    Ok(Some(Text::from_string(unescaped(alloc, text)?)))
}

/// Names with commas between them. The empty text lists none.
pub fn names(alloc: Global, text: &str) -> Result<List<Name>, Fault> {
    let mut listed = List::new(alloc);
    if text.is_empty() {
        return Ok(listed);
    }
    for part in text.split(',') {
        listed.push(name(alloc, part)?)?;
    }
    Ok(listed)
}

/// System privileges with commas between them. The empty text lists none.
pub fn privileges(alloc: Global, text: &str) -> Result<List<Privilege>, Fault> {
    let mut listed = List::new(alloc);
    if text.is_empty() {
        return Ok(listed);
    }
    for part in text.split(',') {
        listed.push(privilege(part)?)?;
    }
    Ok(listed)
}

fn privilege(text: &str) -> Result<Privilege, Fault> {
    Privilege::from_name(text.as_bytes()).ok_or(Fault::NoCase)
}

/// An action.
pub fn action(text: &str) -> Result<Action, Fault> {
    Action::from_name(text.as_bytes()).ok_or(Fault::NoCase)
}
