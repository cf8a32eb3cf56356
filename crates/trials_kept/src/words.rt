//! Bytes, as the words of a line spell them.

use std::alloc::Global;
use trials_lines::{Fault, number};

/// The bytes that the words spell, with blanks between them:
///
/// - the name of a change is its tag, as `RoleGrant`
/// - `'NAME'` is a name behind its length in two bytes, `"TEXT"` a text behind its length in four; in a
///   text `~` stands for a blank
/// - `#N` is a number in four bytes, `##N` one in eight
/// - `N*BYTE` is a byte so many times
/// - all else are hexadecimal digits
pub fn bytes_of(alloc: Global, words: &str) -> Result<Vec<u8>, Fault> {
    let mut bytes = Vec::new(alloc);
    for word in words.split(' ') {
        push_word(alloc, &mut bytes, word)?;
    }
    Ok(bytes)
}

/// The bytes of a list: the count of its parts in four bytes, and the parts, which `;` parts.
pub fn list_of(alloc: Global, parts: &str) -> Result<Vec<u8>, Fault> {
    let mut count = 0u32;
    let mut behind = Vec::new(alloc);
    if !parts.trim().is_empty() {
        for part in parts.split(';') {
            count = count.saturating_add(1);
            behind.extend_from_slice(&bytes_of(alloc, part.trim())?)?;
        }
    }
    let mut bytes = Vec::new(alloc);
    bytes.extend_from_slice(&count.to_be_bytes())?;
    bytes.extend_from_slice(&behind)?;
    Ok(bytes)
}

fn push_word(alloc: Global, bytes: &mut Vec<u8>, word: &str) -> Result<(), Fault> {
    if let Some(name) = between(word, '\'') {
        let len = u16::try_from(name.len()).map_err(|_| Fault::NoCase)?;
        bytes.extend_from_slice(&len.to_be_bytes())?;
        bytes.extend_from_slice(name.as_bytes())?;
    } else if let Some(text) = between(word, '"') {
        let len = u32::try_from(text.len()).map_err(|_| Fault::NoCase)?;
        bytes.extend_from_slice(&len.to_be_bytes())?;
        push_text(bytes, text)?;
    } else if let Some(digits) = word.strip_prefix("##") {
        bytes.extend_from_slice(&number(digits)?.to_be_bytes())?;
    } else if let Some(digits) = word.strip_prefix('#') {
        let number: u32 = digits.parse().map_err(|_| Fault::NoCase)?;
        bytes.extend_from_slice(&number.to_be_bytes())?;
    } else {
        push_plain(alloc, bytes, word)?;
    }
    Ok(())
}

// Adds the bytes of the text, a blank for each `~`.
fn push_text(bytes: &mut Vec<u8>, text: &str) -> Result<(), Fault> {
    for byte in text.as_bytes() {
        bytes.push(if *byte == b'~' { b' ' } else { *byte })?;
    }
    Ok(())
}

// What stands between two of these marks.
fn between(word: &str, mark: char) -> Option<&str> {
    word.strip_prefix(mark)?.strip_suffix(mark)
}

// Adds a tag, a byte many times, or the bytes of hexadecimal digits.
fn push_plain(alloc: Global, bytes: &mut Vec<u8>, word: &str) -> Result<(), Fault> {
    if let Some(tag) = tag_of(word) {
        bytes.push(tag)?;
        return Ok(());
    }
    match word.split_once('*') {
        Some((times, digits)) => {
            for _ in 0..number(times)? {
                push_digits(alloc, bytes, digits)?;
            }
            Ok(())
        }
        None => push_digits(alloc, bytes, word),
    }
}

fn push_digits(alloc: Global, bytes: &mut Vec<u8>, digits: &str) -> Result<(), Fault> {
    match hex::decode(alloc, digits) {
        Ok(more) => {
            bytes.extend_from_slice(&more)?;
            Ok(())
        }
        Err(_) => Err(Fault::NoCase),
    }
}

// The tag of the change with this name.
fn tag_of(word: &str) -> Option<u8> {
    match word {
        "User" => Some(1),
        "UserGone" => Some(2),
        "Role" => Some(3),
        "RoleGone" => Some(4),
        "SysGrant" => Some(5),
        "SysRevoke" => Some(6),
        "RoleGrant" => Some(7),
        "RoleRevoke" => Some(8),
        "ObjGrant" => Some(9),
        "ObjRevoke" => Some(10),
        "Table" => Some(11),
        "TableGone" => Some(12),
        _ => later_tag(word),
    }
}

fn later_tag(word: &str) -> Option<u8> {
    match word {
        "Put" => Some(13),
        "Gone" => Some(14),
        "Policy" => Some(15),
        "PolicyGone" => Some(16),
        "Enable" => Some(17),
        "Fga" => Some(18),
        "FgaGone" => Some(19),
        "Archive" => Some(20),
        "Start" => Some(21),
        _ => None,
    }
}
