//! Moments, numbers of sessions and return codes.

use crate::numbers::{read_u32, read_u64, write_u32, write_u64};
use crate::read_error::ReadError;
use crate::spelled::Spelled;
use au_base::{Code, LAST_MOMENT, Memory, SessionNo, Stamp};
use std::alloc::Global;

/// The last number of a session: 18 digits.
pub(crate) const LAST_SESSION: u64 = 999_999_999_999_999_999;

impl Spelled for u32 {
    ghost use Rattle.std.specs.Int.{w32};
    ghost use Rattle.rec_parts.specs.Spelling.{number};
    ghost use Rattle.rec_parts.specs.descent.Reading.{number_first};

    ghost spelling = { number w32 };

    ghost first = { number_first w32 };

    fn write(&self, out: &mut Vec<u8>) -> Result<(), Memory> {
        write_u32(out, *self)
    }

    fn read(_: Global, bytes: &[u8]) -> Result<(Self, &[u8]), ReadError> {
        read_u32(bytes)
    }
}

#[tactic(auto, unfolding(crate::specs::Parts::stamp, crate::specs::descent::Parts::stamp_first))]
impl Spelled for Stamp {
    ghost use Rattle.rec_parts.specs.Parts.{stamp};
    ghost use Rattle.rec_parts.specs.descent.Parts.{stamp_first};

    ghost spelling = { stamp };

    ghost first = { stamp_first };

    fn write(&self, out: &mut Vec<u8>) -> Result<(), Memory> {
        write_u64(out, self.0)
    }

    fn read(_: Global, bytes: &[u8]) -> Result<(Self, &[u8]), ReadError> {
        let (number, rest) = read_u64(bytes)?;
        if number > LAST_MOMENT {
            return Err(ReadError::NoFrame);
        }
        Ok((Stamp(number), rest))
    }
}

#[tactic(auto, unfolding(crate::specs::Parts::session, crate::specs::descent::Parts::session_first))]
impl Spelled for SessionNo {
    ghost use Rattle.rec_parts.specs.Parts.{session};
    ghost use Rattle.rec_parts.specs.descent.Parts.{session_first};

    ghost spelling = { session };

    ghost first = { session_first };

    fn write(&self, out: &mut Vec<u8>) -> Result<(), Memory> {
        write_u64(out, self.0)
    }

    fn read(_: Global, bytes: &[u8]) -> Result<(Self, &[u8]), ReadError> {
        let (number, rest) = read_u64(bytes)?;
        if number > LAST_SESSION {
            return Err(ReadError::NoFrame);
        }
        Ok((SessionNo(number), rest))
    }
}

#[tactic(auto, unfolding(crate::specs::Parts::return_code, crate::specs::descent::Parts::return_code_first))]
impl Spelled for Code {
    ghost use Rattle.rec_parts.specs.Parts.{return_code};
    ghost use Rattle.rec_parts.specs.descent.Parts.{return_code_first};

    ghost spelling = { return_code };

    ghost first = { return_code_first };

    fn write(&self, out: &mut Vec<u8>) -> Result<(), Memory> {
        write_u32(out, self.0)
    }

    fn read(_: Global, bytes: &[u8]) -> Result<(Self, &[u8]), ReadError> {
        let (number, rest) = read_u32(bytes)?;
        Ok((Code(number), rest))
    }
}
