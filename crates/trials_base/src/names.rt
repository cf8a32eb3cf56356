//! Names and identifiers.

use crate::case::{Case, said, word_of};
use au_base::{Memory, Name, Text, built_in};
use std::alloc::Global;

/// What a call on names gives, if the case is one.
pub fn tried(alloc: Global, case: &Case<'_>) -> Result<Option<String>, Memory> {
    match case.call {
        "name" => said(alloc, name(alloc, case.text(0))?.as_str()),
        "name of text" => said(alloc, name_of_text(alloc, case.text(0))?.as_str()),
        "name of bytes" => said(alloc, long_name(alloc, case.number(0))?),
        "identifier" => said(alloc, identifier(alloc, case.text(0))?.as_str()),
        "identifier of bytes" => said(alloc, long_identifier(alloc, case.number(0))?),
        "sys" => said(alloc, Name::from_str(alloc, built_in::SYS)?.as_str()),
        _ => Ok(None),
    }
}

fn shown(alloc: Global, name: Option<Name>) -> Result<String, Memory> {
    match name {
        None => Ok(String::from_str(alloc, "no name")?),
        Some(name) => {
            let copied = name.clone()? == name;
            let same = name.as_text().as_str() == name.as_str();
            if copied && same {
                name.into_text().into_string()
            } else {
                Ok(String::from_str(alloc, "changed")?)
            }
        }
    }
}

// The name with bytes that are given as hexadecimal digits.
fn name(alloc: Global, digits: &str) -> Result<String, Memory> {
    let Ok(bytes) = hex::decode(alloc, digits) else {
        return Ok(String::from_str(alloc, "no digits")?);
    };
    match Name::make(alloc, &bytes)? {
        Some(name) if name.as_bytes() != bytes.as_slice() => {
            Ok(String::from_str(alloc, "changed")?)
        }
        made => shown(alloc, made),
    }
}

fn name_of_text(alloc: Global, given: &str) -> Result<String, Memory> {
    shown(alloc, Name::from_text(Text::from_str(alloc, given)?))
}

// Whether that many bytes `N` are a name.
fn long_name(alloc: Global, length: u64) -> Result<&'static str, Memory> {
    let bytes = vec![in alloc; b'N'; length.min(1_000) as usize]?;
    let made = Name::make(alloc, &bytes)?;
    Ok(word_of(made.is_some(), "a name", "no name"))
}

fn identifier(alloc: Global, given: &str) -> Result<String, Memory> {
    let text = Text::from_str(alloc, given)?;
    shown(alloc, Name::identifier(alloc, &text)?)
}

// Whether that many bytes `a` are read as a name.
fn long_identifier(alloc: Global, length: u64) -> Result<&'static str, Memory> {
    let bytes = vec![in alloc; b'a'; length.min(1_000) as usize]?;
    let Some(text) = Text::make(alloc, &bytes)? else {
        return Ok("no text");
    };
    let read = Name::identifier(alloc, &text)?;
    Ok(word_of(read.is_some(), "a name", "no name"))
}
