//! Values that one byte stands for.
ghost use Rattle.std.specs.Prelude.{◌≡◌};
ghost use Rattle.rec_parts.specs.Given.{Gives};
ghost use Rattle.rec_parts.specs.descent.Parts.{action_with, privilege_with};

use crate::numbers::{read_u8, write_u8};
use crate::read_error::ReadError;
use crate::spelled::Spelled;
use au_base::{Action, Memory, Privilege};
use au_entries::{Outcomes, RecordKind};
use std::alloc::Global;

#[tactic(auto, unfolding(crate::specs::Parts::truth, crate::specs::descent::Parts::truth_first))]
impl Spelled for bool {
    ghost use Rattle.rec_parts.specs.Parts.{truth};
    ghost use Rattle.rec_parts.specs.descent.Parts.{truth_first};

    ghost spelling = { truth };

    ghost first = { truth_first };

    fn write(&self, out: &mut Vec<u8>) -> Result<(), Memory> {
        write_u8(out, u8::from(*self))
    }

    fn read(_: Global, bytes: &[u8]) -> Result<(Self, &[u8]), ReadError> {
        let (code, rest) = read_u8(bytes)?;
        match code {
            0 => Ok((false, rest)),
            1 => Ok((true, rest)),
            _ => Err(ReadError::NoFrame),
        }
    }
}

#[tactic(auto, unfolding(crate::specs::Parts::privilege, crate::specs::descent::Parts::privilege_first))]
impl Spelled for Privilege {
    ghost use Rattle.rec_parts.specs.Parts.{privilege};
    ghost use Rattle.rec_parts.specs.descent.Parts.{privilege_first};

    ghost spelling = { privilege };

    ghost first = { privilege_first };

    fn write(&self, out: &mut Vec<u8>) -> Result<(), Memory> {
        write_u8(out, self.code())
    }

    fn read(_: Global, bytes: &[u8]) -> Result<(Self, &[u8]), ReadError> {
        let (code, rest) = read_u8(bytes)?;
        Ok((privilege_with(code)?, rest))
    }
}

fn privilege_with(code: u8) -> Result<Privilege, ReadError>
    ensures { Gives (λ privilege. privilege) result (privilege_with code) }
{
    match Privilege::from_code(code) {
        Some(privilege) => Ok(privilege),
        None => Err(ReadError::NoFrame),
    }
}

#[tactic(auto, unfolding(crate::specs::Parts::action, crate::specs::descent::Parts::action_first))]
impl Spelled for Action {
    ghost use Rattle.rec_parts.specs.Parts.{action};
    ghost use Rattle.rec_parts.specs.descent.Parts.{action_first};

    ghost spelling = { action };

    ghost first = { action_first };

    fn write(&self, out: &mut Vec<u8>) -> Result<(), Memory> {
        write_u8(out, self.code())
    }

    fn read(_: Global, bytes: &[u8]) -> Result<(Self, &[u8]), ReadError> {
        let (code, rest) = read_u8(bytes)?;
        Ok((action_with(code)?, rest))
    }
}

fn action_with(code: u8) -> Result<Action, ReadError>
    ensures { Gives (λ action. action) result (action_with code) }
{
    match Action::from_code(code) {
        Some(action) => Ok(action),
        None => Err(ReadError::NoFrame),
    }
}

#[tactic(auto, unfolding(crate::specs::Parts::outcomes, crate::specs::descent::Parts::outcomes_first))]
impl Spelled for Outcomes {
    ghost use Rattle.rec_parts.specs.Parts.{outcomes};
    ghost use Rattle.rec_parts.specs.descent.Parts.{outcomes_first};

    ghost spelling = { outcomes };

    ghost first = { outcomes_first };

    fn write(&self, out: &mut Vec<u8>) -> Result<(), Memory> {
        write_u8(out, u8::from(self.success) + 2 * u8::from(self.failure))
    }

    fn read(_: Global, bytes: &[u8]) -> Result<(Self, &[u8]), ReadError> {
        let (code, rest) = read_u8(bytes)?;
        let (success, failure) = match code {
            1 => (true, false),
            2 => (false, true),
            3 => (true, true),
            _ => return Err(ReadError::NoFrame),
        };
        Ok((Outcomes { success, failure }, rest))
    }
}

#[tactic(auto, unfolding(crate::specs::Parts::kind, crate::specs::descent::Parts::kind_first))]
impl Spelled for RecordKind {
    ghost use Rattle.rec_parts.specs.Parts.{kind};
    ghost use Rattle.rec_parts.specs.descent.Parts.{kind_first};

    ghost spelling = { kind };

    ghost first = { kind_first };

    fn write(&self, out: &mut Vec<u8>) -> Result<(), Memory> {
        match self {
            RecordKind::Standard => write_u8(out, 1),
            RecordKind::FineGrained => write_u8(out, 2),
        }
    }

    fn read(_: Global, bytes: &[u8]) -> Result<(Self, &[u8]), ReadError> {
        let (code, rest) = read_u8(bytes)?;
        match code {
            1 => Ok((RecordKind::Standard, rest)),
            2 => Ok((RecordKind::FineGrained, rest)),
            _ => Err(ReadError::NoFrame),
        }
    }
}
