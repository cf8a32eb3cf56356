//! The lines of standard input.

use crate::fault::Fault;
use au_base::Memory;
use std::alloc::Global;

/// A call, and what it is given.
#[derive(Drop)]
pub struct Case<'a> {
    /// The call, by its name.
    pub call: &'a str,
    /// What it is given, in order.
    pub given: Vec<&'a str>,
}

impl<'a> Case<'a> {
    /// The fields of a line, which are parted by `|`: the first is the call.
    pub fn read(alloc: Global, line: &'a str) -> Result<Case<'a>, Memory> {
        let mut fields = line.split('|');
        let call = fields.next().unwrap_or("");
        let mut given = Vec::new(alloc);
        for field in fields {
            given.push(field)?;
        }
        Ok(Case { call, given })
    }

    /// What it is given at a place from 0; the empty text past the last.
    pub fn text(&self, place: usize) -> &'a str {
        self.given.get(place).copied().unwrap_or("")
    }

    /// The number at a place from 0; 0 where there is none.
    pub fn number(&self, place: usize) -> u32 {
        self.text(place).parse::<u32>().unwrap_or(0)
    }

    /// The number of two bytes at a place from 0; 0 where there is none.
    pub fn short(&self, place: usize) -> u16 {
        self.text(place).parse::<u16>().unwrap_or(0)
    }

    /// The number of one byte at a place from 0; 0 where there is none.
    pub fn byte(&self, place: usize) -> u8 {
        self.text(place).parse::<u8>().unwrap_or(0)
    }

    /// The bytes at a place from 0, which are given as hexadecimal digits. Blanks part them.
    pub fn bytes(&self, alloc: Global, place: usize) -> Result<Vec<u8>, Fault> {
        bytes_of(alloc, self.text(place))
    }
}

/// The bytes that hexadecimal digits stand for. Blanks part them.
pub fn bytes_of(alloc: Global, digits: &str) -> Result<Vec<u8>, Fault> {
    let mut bytes = Vec::new(alloc);
    for part in digits.split(' ') {
        match hex::decode(alloc, part) {
            Ok(more) => bytes.extend_from_slice(&more)?,
            Err(_) => return Err(Fault::NoCase),
        }
    }
    Ok(bytes)
}
