//! The parts of a line.
ghost use Rattle.std.specs.Prelude.{ℕ, List, IfOk};
ghost use Rattle.au_journal.specs.Seats.{IsFramed};

use crate::fault::Fault;
use au_io::Area;
use std::alloc::Global;

/// The number that the word writes.
pub fn number(word: &str) -> Result<u64, Fault> {
    word.parse().map_err(|_| Fault::NoCase)
}

/// The numbers that the word lists, with commas between them. `-` lists none.
pub fn numbers(alloc: Global, word: &str) -> Result<Vec<u64>, Fault> {
    let mut listed = Vec::new(alloc);
    if word == "-" {
        return Ok(listed);
    }
    for part in word.split(',') {
        listed.push(number(part)?)?;
    }
    Ok(listed)
}

/// The area of that name.
pub fn area_named(name: &str) -> Result<Area, Fault> {
    match name {
        "head" => Ok(Area::Head),
        "a" => Ok(Area::A),
        "b" => Ok(Area::B),
        _ => Err(Fault::NoCase),
    }
}

/// The bytes that the word writes in hex.
pub fn bytes_of(alloc: Global, word: &str) -> Result<Vec<u8>, Fault> {
    let mut bytes = Vec::new(alloc);
    for pair in word.as_bytes().chunks(2) {
        let digits = str::from_utf8(pair).map_err(|_| Fault::NoCase)?;
        bytes.push(u8::from_str_radix(digits, 16).map_err(|_| Fault::NoCase)?)?;
    }
    Ok(bytes)
}

/// The word before the first space, and what stands behind the space.
pub fn first_word(text: &str) -> (&str, &str) {
    text.split_once(' ').unwrap_or((text, ""))
}

/// The framed bytes of a body that the word writes: its length, its bytes and a closed gate.
pub fn framed_body(alloc: Global, word: &str) -> Result<Vec<u8>, Fault>
    ensures { IfOk result (λ bytes. (body : List ℕ) × IsFramed bytes.items body) }
{
    let body = body_of(alloc, word)?;
    match body.as_slice().split_first() {
        Some((first, rest)) => framed(alloc, *first, rest),
        None => Err(Fault::NoCase),
    }
}

fn body_of(alloc: Global, word: &str) -> Result<Vec<u8>, Fault> {
    let (part, times) = word.split_once('*').unwrap_or((word, "1"));
    let times: u16 = times.parse().map_err(|_| Fault::NoCase)?;
    let mut body = Vec::new(alloc);
    for _time in 0..times {
        body.extend_from_slice(part.as_bytes())?;
    }
    Ok(body)
}

fn framed(alloc: Global, first: u8, rest: &[u8]) -> Result<Vec<u8>, Fault>
    ensures { IfOk result (λ bytes. (body : List ℕ) × IsFramed bytes.items body) }
{
    let length = rest.len() as u64 + 1;
    let mut bytes = Vec::new(alloc);
    bytes.extend_from_slice(&length.to_be_bytes())?;
    bytes.push(first)?;
    bytes.extend_from_slice(rest)?;
    bytes.push(0)?;
    Ok(bytes)
}
