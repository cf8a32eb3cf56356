//! Texts as they are written in a line.
ghost use Rattle.std.specs.Prelude.{◌≤◌, IfOk, length};

use crate::fault::Fault;
use std::alloc::Global;

// The most bytes of a text.
const LONGEST: usize = 1_000_000;

/// The bytes that a text stands for, a million at most. It isn't read where an escape in it has no
/// meaning.
pub fn unescaped(alloc: Global, written: &str) -> Result<Vec<u8>, Fault>
    ensures { IfOk result (λ text. length text.items ≤ 1_000_000) }
{
    let mut text = Vec::new(alloc);
    for (place, piece) in written.split('\\').enumerate() {
        if place == 0 {
            text.extend_from_slice(piece.as_bytes())?;
        } else {
            put_escaped(&mut text, piece)?;
        }
    }
    if text.len() > LONGEST {
        return Err(Fault::NoCase);
    }
    Ok(text)
}

// Adds what a piece stands for whose `\` came before.
fn put_escaped(text: &mut Vec<u8>, piece: &str) -> Result<(), Fault> {
    match piece.as_bytes() {
        [b'n', rest @ ..] => put_byte(text, b'\n', rest),
        [b'r', rest @ ..] => put_byte(text, b'\r', rest),
        [b't', rest @ ..] => put_byte(text, b'\t', rest),
        [b'x', high, low, rest @ ..] => {
            let byte = value_of(*high)? * 16 + value_of(*low)?;
            put_byte(text, byte, rest)
        }
        _ => put_repeated(text, piece),
    }
}

// Adds a byte and what is written behind its escape.
fn put_byte(text: &mut Vec<u8>, byte: u8, rest: &[u8]) -> Result<(), Fault> {
    text.push(byte)?;
    text.extend_from_slice(rest)?;
    Ok(())
}

// What a hexadecimal digit stands for.
fn value_of(digit: u8) -> Result<u8, Fault>
    ensures { IfOk result (λ value. value ≤ 15) }
{
    match digit {
        b'0'..=b'9' => Ok(digit - b'0'),
        b'a'..=b'f' => Ok(digit - b'a' + 10),
        _ => Err(Fault::NoCase),
    }
}

// Adds what `N{PART}` stands for and what is written behind it.
fn put_repeated(text: &mut Vec<u8>, piece: &str) -> Result<(), Fault> {
    let Some((times, behind)) = piece.split_once('{') else {
        return Err(Fault::NoCase);
    };
    let Some((part, rest)) = behind.split_once('}') else {
        return Err(Fault::NoCase);
    };
    let Ok(times) = times.parse::<u16>() else {
        return Err(Fault::NoCase);
    };
    for _ in 0..times {
        text.extend_from_slice(part.as_bytes())?;
    }
    text.extend_from_slice(rest.as_bytes())?;
    Ok(())
}
