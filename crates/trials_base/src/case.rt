//! The lines of standard input.

use au_base::Memory;
use std::alloc::Global;

/// A call, and what it is given.
#[derive(Drop)]
pub struct Case<'a> {
    /// The call, by its name.
    pub call: &'a str,
    /// What it is given, in order.
    pub given: Vec<&'a str>,
}

impl<'a> Case<'a> {
    /// The fields of a line, which are parted by `|`: the first is the call.
    pub fn read(alloc: Global, line: &'a str) -> Result<Case<'a>, Memory> {
        let mut fields = line.split('|');
        let call = fields.next().unwrap_or("");
        let mut given = Vec::new(alloc);
        for field in fields {
            given.push(field)?;
        }
        Ok(Case { call, given })
    }

    /// What it is given at a place from 0; the empty text past the last.
    pub fn text(&self, place: usize) -> &'a str {
        self.given.get(place).copied().unwrap_or("")
    }

    /// The number at a place from 0; 0 where there is none.
    pub fn number(&self, place: usize) -> u64 {
        self.text(place).parse::<u64>().unwrap_or(0)
    }
}

/// A text as what came.
pub fn said(alloc: Global, text: &str) -> Result<Option<String>, Memory> {
    Ok(Some(String::from_str(alloc, text)?))
}

/// The first word where the test holds, else the second.
pub fn word_of(test: bool, yes: &'static str, no: &'static str) -> &'static str {
    if test { yes } else { no }
}
