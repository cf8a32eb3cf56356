//! Lists of numbers.

use crate::case::Case;
use au_base::{List, Memory};
use std::alloc::Global;

/// What a call on lists gives, if the case is one.
pub fn tried(alloc: Global, case: &Case<'_>) -> Result<Option<String>, Memory> {
    match case.call {
        "found" => Ok(Some(found(alloc, case)?)),
        "write" => Ok(Some(written(alloc, case)?)),
        "reserve" => Ok(Some(reserved(alloc, case)?)),
        "pop" => Ok(Some(popped(alloc, case)?)),
        "append" => Ok(Some(appended(alloc, case)?)),
        "retain" => Ok(Some(retained(alloc, case)?)),
        _ => Ok(None),
    }
}

// The list of the numbers of a text, which are parted by spaces.
fn list(alloc: Global, given: &str) -> Result<List<u64>, Memory> {
    let mut list = List::new(alloc);
    for number in given.split(' ') {
        if let Ok(number) = number.parse::<u64>() {
            list.push(number)?;
        }
    }
    Ok(list)
}

// The elements of a list, such as `[3 5]`.
fn elements(alloc: Global, list: &List<u64>) -> Result<String, Memory> {
    let mut text = String::new(alloc);
    for number in list.iter() {
        if !text.is_empty() {
            text.push(' ')?;
        }
        text.push_str(format!(in alloc; "{number}")?.as_str())?;
    }
    Ok(format!(in alloc; "[{text}]")?)
}

// The first number from a least one on, and its place.
fn found(alloc: Global, case: &Case<'_>) -> Result<String, Memory> {
    let least = case.number(0);
    let list = list(alloc, case.text(1))?;
    let found = list.iter().find(|number| least <= **number);
    let place = list.iter().position(|number| least <= *number);
    match (found, place) {
        (Some(number), Some(place)) => Ok(format!(in alloc; "{number} at {place}")?),
        (None, None) => Ok(String::from_str(alloc, "none")?),
        _ => Ok(String::from_str(alloc, "found and not found")?),
    }
}

// The list with a number written at a place.
fn written(alloc: Global, case: &Case<'_>) -> Result<String, Memory> {
    let mut list = list(alloc, case.text(2))?;
    if let Some(element) = list.as_mut_slice().get_mut(case.number(0) as usize) {
        *element = case.number(1);
    }
    elements(alloc, &list)
}

// The list with room for so many more numbers.
fn reserved(alloc: Global, case: &Case<'_>) -> Result<String, Memory> {
    let mut list = list(alloc, case.text(1))?;
    let room = match list.reserve(case.number(0) as usize) {
        Ok(()) => "room",
        Err(Memory) => "no room",
    };
    let left = elements(alloc, &list)?;
    Ok(format!(in alloc; "{room}, {left}")?)
}

// The last number, and the list without it.
fn popped(alloc: Global, case: &Case<'_>) -> Result<String, Memory> {
    let mut list = list(alloc, case.text(0))?;
    let last = list.pop();
    let left = elements(alloc, &list)?;
    match last {
        Some(number) => Ok(format!(in alloc; "{number}, {left}")?),
        None => Ok(format!(in alloc; "none, {left}")?),
    }
}

// A list with another behind it, and what the other has then.
fn appended(alloc: Global, case: &Case<'_>) -> Result<String, Memory> {
    let mut joined = list(alloc, case.text(0))?;
    let mut other = list(alloc, case.text(1))?;
    joined.append(&mut other)?;
    let (joined, left) = (elements(alloc, &joined)?, elements(alloc, &other)?);
    Ok(format!(in alloc; "{joined}, {left}")?)
}

// The numbers from a least one on.
fn retained(alloc: Global, case: &Case<'_>) -> Result<String, Memory> {
    let least = case.number(0);
    let mut list = list(alloc, case.text(1))?;
    list.retain(|number| least <= *number);
    elements(alloc, &list)
}
