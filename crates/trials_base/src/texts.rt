//! Texts, and how they are ordered.

use crate::case::{Case, said, word_of};
use au_base::{Memory, Text};
use std::alloc::Global;
use std::cmp::Ordering;

/// What a call on texts gives, if the case is one.
pub fn tried(alloc: Global, case: &Case<'_>) -> Result<Option<String>, Memory> {
    match case.call {
        "utf8" => said(alloc, kept(alloc, case.text(0))?),
        "upper" => said(alloc, upper(alloc, case.text(0))?.as_str()),
        "upper ascii" => said(alloc, upper_ascii(alloc, case.text(0))?.as_str()),
        "order" => said(alloc, order(alloc, case.text(0), case.text(1))?),
        _ => Ok(None),
    }
}

// Whether bytes, which are given as hexadecimal digits, are a text with these bytes and an equal copy.
fn kept(alloc: Global, digits: &str) -> Result<&'static str, Memory> {
    let Ok(bytes) = hex::decode(alloc, digits) else {
        return Ok("no digits");
    };
    match Text::make(alloc, &bytes)? {
        None => Ok("no text"),
        Some(text) => {
            let same = text.as_bytes() == bytes.as_slice();
            let copied = text.clone()? == text;
            Ok(word_of(same && copied, "kept", "changed"))
        }
    }
}

fn upper(alloc: Global, given: &str) -> Result<String, Memory> {
    let mut text = Text::from_string(String::from_str(alloc, given)?);
    text.make_ascii_uppercase();
    text.into_string()
}

fn upper_ascii(alloc: Global, given: &str) -> Result<String, Memory> {
    if !given.is_ascii() {
        return Ok(String::from_str(alloc, "no ASCII")?);
    }
    let mut text = Text::from_ascii(alloc, given.as_bytes())?;
    text.make_ascii_uppercase();
    text.into_string()
}

fn order(alloc: Global, a: &str, b: &str) -> Result<&'static str, Memory> {
    let (a, b) = (Text::from_str(alloc, a)?, Text::from_str(alloc, b)?);
    let equal = a == b;
    Ok(match a.cmp(&b) {
        Ordering::Less => word_of(equal, "less and equal", "less"),
        Ordering::Equal => word_of(equal, "equal", "neither less nor equal"),
        Ordering::Greater => word_of(equal, "greater and equal", "greater"),
    })
}
