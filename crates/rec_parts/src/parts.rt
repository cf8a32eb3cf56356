//! Names, texts, tables and verifiers.
ghost use Rattle.std.specs.Prelude.{◌≡◌, if◌then◌else◌, Some, None};
ghost use Rattle.std.specs.Str.{is_utf8};
ghost use Rattle.rec_parts.specs.Given.{Gives};
ghost use Rattle.rec_parts.specs.descent.Parts.{is_name};

use crate::numbers::{read_run, read_u16, read_u32, write_u16, write_u32};
use crate::read_error::ReadError;
use crate::spelled::Spelled;
use au_base::{Memory, Name, TableName, Text};
use std::alloc::Global;

#[tactic(auto, unfolding(crate::specs::Parts::name, crate::specs::descent::Parts::name_first))]
impl Spelled for Name {
    ghost use Rattle.rec_parts.specs.Parts.{name};
    ghost use Rattle.rec_parts.specs.descent.Parts.{name_first};

    ghost spelling = { name };

    ghost first = { name_first };

    fn write(&self, out: &mut Vec<u8>) -> Result<(), Memory> {
        let bytes = self.as_bytes();
        write_u16(out, bytes.len() as u16)?;
        out.extend_from_slice(bytes)?;
        Ok(())
    }

    fn read(alloc: Global, bytes: &[u8]) -> Result<(Self, &[u8]), ReadError> {
        let (len, rest) = read_u16(bytes)?;
        let (front, rest) = read_run(rest, usize::from(len))?;
        Ok((name_of(alloc, front)?, rest))
    }
}

#[tactic(auto, unfolding(crate::specs::Parts::text, crate::specs::descent::Parts::text_first))]
impl Spelled for Text {
    ghost use Rattle.rec_parts.specs.Parts.{text};
    ghost use Rattle.rec_parts.specs.descent.Parts.{text_first};

    ghost spelling = { text };

    ghost first = { text_first };

    fn write(&self, out: &mut Vec<u8>) -> Result<(), Memory> {
        let bytes = self.as_bytes();
        write_u32(out, bytes.len() as u32)?;
        out.extend_from_slice(bytes)?;
        Ok(())
    }

    fn read(alloc: Global, bytes: &[u8]) -> Result<(Self, &[u8]), ReadError> {
        let (len, rest) = read_u32(bytes)?;
        let (front, rest) = read_run(rest, len as usize)?;
        Ok((text_of(alloc, front)?, rest))
    }
}

fn name_of(alloc: Global, bytes: &[u8]) -> Result<Name, ReadError>
    ensures { Gives (λ name. name) result (if is_name bytes.now then Some bytes.now else None) }
{
    match Name::make(alloc, bytes)? {
        Some(name) => Ok(name),
        None => Err(ReadError::NoFrame),
    }
}

pub(crate) fn text_of(alloc: Global, bytes: &[u8]) -> Result<Text, ReadError>
    ensures { Gives (λ text. text) result (if is_utf8 bytes.now then Some bytes.now else None) }
{
    match Text::make(alloc, bytes)? {
        Some(text) => Ok(text),
        None => Err(ReadError::NoFrame),
    }
}

#[tactic(auto, unfolding(crate::specs::Parts::table, crate::specs::descent::Parts::table_first))]
impl Spelled for TableName {
    ghost use Rattle.rec_parts.specs.Parts.{table};
    ghost use Rattle.rec_parts.specs.descent.Parts.{table_first};

    ghost spelling = { table };

    ghost first = { table_first };

    fn write(&self, out: &mut Vec<u8>) -> Result<(), Memory> {
        self.owner.write(out)?;
        self.name.write(out)
    }

    fn read(alloc: Global, bytes: &[u8]) -> Result<(Self, &[u8]), ReadError> {
        let (owner, rest) = Name::read(alloc, bytes)?;
        let (name, rest) = Name::read(alloc, rest)?;
        Ok((TableName { owner, name }, rest))
    }
}

/// A password's verifier.
#[tactic(auto, unfolding(crate::specs::Parts::verifier, crate::specs::descent::Parts::verifier_first))]
impl Spelled for [u8; 32] {
    ghost use Rattle.rec_parts.specs.Parts.{verifier};
    ghost use Rattle.rec_parts.specs.descent.Parts.{verifier_first};

    ghost spelling = { verifier };

    ghost first = { verifier_first };

    fn write(&self, out: &mut Vec<u8>) -> Result<(), Memory> {
        out.extend_from_slice(self)?;
        Ok(())
    }

    fn read(_: Global, bytes: &[u8]) -> Result<(Self, &[u8]), ReadError> {
        let (front, rest) = read_run(bytes, 32)?;
        let mut verifier = [0; 32];
        verifier.copy_from_slice(front);
        Ok((verifier, rest))
    }
}
