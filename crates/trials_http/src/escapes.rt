//! Bytes and texts as they are written in a line.
ghost use Rattle.std.specs.Prelude.{◌≤◌, IfOk};

use std::alloc::Global;
use trials_lines::Fault;

/// The bytes that are written so.
pub fn unescaped(alloc: Global, written: &str) -> Result<Vec<u8>, Fault> {
    let mut bytes = Vec::new(alloc);
    for (place, piece) in written.split('\\').enumerate() {
        if place == 0 {
            bytes.extend_from_slice(piece.as_bytes())?;
        } else {
            put_escaped(&mut bytes, piece)?;
        }
    }
    Ok(bytes)
}

// Adds what a piece stands for whose `\` came before.
fn put_escaped(bytes: &mut Vec<u8>, piece: &str) -> Result<(), Fault> {
    match piece.as_bytes() {
        [b'n', rest @ ..] => put_byte(bytes, b'\n', rest),
        [b'r', rest @ ..] => put_byte(bytes, b'\r', rest),
        [b't', rest @ ..] => put_byte(bytes, b'\t', rest),
        [b'x', high, low, rest @ ..] => {
            let byte = value_of(*high)? * 16 + value_of(*low)?;
            put_byte(bytes, byte, rest)
        }
        _ => put_repeated(bytes, piece),
    }
}

// Adds a byte and what is written behind its escape.
fn put_byte(bytes: &mut Vec<u8>, byte: u8, rest: &[u8]) -> Result<(), Fault> {
    bytes.push(byte)?;
    bytes.extend_from_slice(rest)?;
    Ok(())
}

// What a hexadecimal digit stands for.
fn value_of(digit: u8) -> Result<u8, Fault>
    ensures { IfOk result (λ value. value ≤ 15) }
{
    match digit {
        b'0'..=b'9' => Ok(digit - b'0'),
        b'a'..=b'f' => Ok(digit - b'a' + 10),
        _ => Err(Fault::NoCase),
    }
}

// Adds what `N{PART}` stands for and what is written behind it.
fn put_repeated(bytes: &mut Vec<u8>, piece: &str) -> Result<(), Fault> {
    let (times, behind) = piece.split_once('{').ok_or(Fault::NoCase)?;
    let (part, rest) = behind.split_once('}').ok_or(Fault::NoCase)?;
    let times: u32 = times.parse().map_err(|_| Fault::NoCase)?;
    for _ in 0..times {
        bytes.extend_from_slice(part.as_bytes())?;
    }
    bytes.extend_from_slice(rest.as_bytes())?;
    Ok(())
}

/// The text, written so. One of over 100 bytes that are all the same is written as that byte so often.
pub fn escaped(alloc: Global, text: &str) -> Result<String, Fault> {
    if let Some(byte) = only_byte(text.as_bytes()) {
        return Ok(format!(in alloc; "\\{}{{{byte}}}", text.len())?);
    }
    let mut written = String::new(alloc);
    for letter in text.chars() {
        push_escaped(alloc, &mut written, letter)?;
    }
    Ok(written)
}

// The one byte of a long text, as a letter.
fn only_byte(bytes: &[u8]) -> Option<char> {
    let first = *bytes.first()?;
    if bytes.len() > 100 && bytes.iter().all(|byte| *byte == first) {
        Some(first as char)
    } else {
        None
    }
}

fn push_escaped(alloc: Global, written: &mut String, letter: char) -> Result<(), Fault> {
    match letter {
        '\n' => written.push_str("\\n")?,
        '\r' => written.push_str("\\r")?,
        '\t' => written.push_str("\\t")?,
        '\\' => written.push_str("\\x5c")?,
        '\0'..='\x1f' | '\x7f' => {
            let code = letter as u32;
            written.push_str(&format!(in alloc; "\\x{code:02x}")?)?;
        }
        _ => written.push(letter)?,
    }
    Ok(())
}
