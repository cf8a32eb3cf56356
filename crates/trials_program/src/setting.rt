//! What the source has, the pieces of source and sink, and which of their calls fail.

use crate::fault::Fault;
use crate::outside::{CLOCK, Handed};
use crate::texts::{long, plain};
use crate::words::{first_word, number, numbers};
use std::alloc::Global;

/// What a command is handed beside its words and its disk.
#[derive(Drop)]
pub struct Setting {
    input: String,
    /// The sizes of pieces in which a command is tried.
    pub pieces: Vec<u64>,
    source_faults: Vec<u64>,
    sink_faults: Vec<u64>,
}

impl Setting {
    /// A source that has nothing, pieces of 4,096 bytes, and no faults.
    pub fn new(alloc: Global) -> Result<Setting, Fault> {
        Ok(Setting {
            pieces: vec![in alloc; 4096]?,
            input: String::new(alloc),
            source_faults: Vec::new(alloc),
            sink_faults: Vec::new(alloc),
        })
    }

    /// Sets what the line names.
    pub fn set(&mut self, alloc: Global, step: &str, part: &str) -> Result<(), Fault> {
        match step {
            "input" => self.input = plain(alloc, part)?,
            "long" => {
                let (count, rest) = first_word(part);
                self.input = long(alloc, number(count)?, rest)?;
            }
            "pieces" => self.pieces = numbers(alloc, part, ' ')?,
            "faults" => {
                let (source, sink) = first_word(part);
                self.source_faults = numbers(alloc, source, ' ')?;
                self.sink_faults = numbers(alloc, sink, ' ')?;
            }
            _ => return Err(Fault::NoCase),
        }
        Ok(())
    }

    /// What a command is handed in pieces of this size.
    pub fn handed(&self, piece: u64) -> Handed<'_> {
        Handed {
            input: &self.input,
            piece: piece as usize,
            source_faults: &self.source_faults,
            sink_faults: &self.sink_faults,
            clock: CLOCK,
        }
    }
}
