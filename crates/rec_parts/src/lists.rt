//! Lists behind their counts.
ghost use Rattle.std.specs.Prelude.{◌≡◌, ◌++◌, OnOk};
ghost use Rattle.std.specs.Int.{w16};
ghost use Rattle.rec_parts.specs.Spelling.{byte, number, counted};
ghost use Rattle.rec_parts.specs.Given.{Gives};
ghost use Rattle.rec_parts.specs.Parts.{is_rising, names, privileges_in_order};
ghost use Rattle.rec_parts.specs.descent.Reading.{byte_first, counted_first, number_first};
ghost use Rattle.rec_parts.specs.descent.Parts.{names_first, privileges_first};

use crate::numbers::{read_u8, read_u16, write_u8, write_u16};
use crate::read_error::ReadError;
use crate::repeats::is_without_repeats;
use crate::spelled::{Spelled, read_many, write_many};
use au_base::{List, Memory, Name, Privilege};
use std::alloc::Global;

/// Writes a count of one byte, and the values.
pub(crate) fn write_list_u8<T: Spelled>(values: &List<T>, out: &mut Vec<u8>) -> Result<(), Memory>
    requires { (counted byte T.spelling).IsSpellable values.now }
    ensures { OnOk result (out.new.items ≡ out.old.items ++ (counted byte T.spelling).spelled values.now) }
{
    write_u8(out, values.len() as u8)?;
    write_many(values.as_slice(), out)
}

/// Writes a count of two bytes, and the values.
pub fn write_list_u16<T: Spelled>(values: &List<T>, out: &mut Vec<u8>) -> Result<(), Memory>
    requires { (counted (number w16) T.spelling).IsSpellable values.now }
    ensures { OnOk result (out.new.items ≡ out.old.items ++ (counted (number w16) T.spelling).spelled values.now) }
{
    write_u16(out, values.len() as u16)?;
    write_many(values.as_slice(), out)
}

/// The values behind a count of one byte.
pub(crate) fn read_list_u8<T: Spelled>(
    alloc: Global,
    bytes: &[u8],
) -> Result<(List<T>, &[u8]), ReadError>
    ensures { Gives (λ x. (x.0, x.1.now)) result (counted_first byte_first T.first bytes.now) }
{
    let (count, rest) = read_u8(bytes)?;
    read_many(alloc, u32::from(count), rest)
}

/// The values behind a count of two bytes.
pub fn read_list_u16<T: Spelled>(alloc: Global, bytes: &[u8]) -> Result<(List<T>, &[u8]), ReadError>
    ensures { Gives (λ x. (x.0, x.1.now)) result (counted_first (number_first w16) T.first bytes.now) }
{
    let (count, rest) = read_u16(bytes)?;
    read_many(alloc, u32::from(count), rest)
}

/// Writes names.
#[tactic(auto, unfolding(crate::specs::Parts::names))]
pub fn write_names(values: &List<Name>, out: &mut Vec<u8>) -> Result<(), Memory>
    requires { names.IsSpellable values.now }
    ensures { OnOk result (out.new.items ≡ out.old.items ++ names.spelled values.now) }
{
    write_list_u16(values, out)
}

/// Names, no two the same.
#[tactic(auto, unfolding(crate::specs::descent::Parts::names_first))]
pub fn read_names(alloc: Global, bytes: &[u8]) -> Result<(List<Name>, &[u8]), ReadError>
    ensures { Gives (λ x. (x.0, x.1.now)) result (names_first bytes.now) }
{
    let (values, rest) = read_list_u16::<Name>(alloc, bytes)?;
    if !is_without_repeats(alloc, values.as_slice())? {
        return Err(ReadError::NoFrame);
    }
    Ok((values, rest))
}

/// Writes privileges.
#[tactic(auto, unfolding(crate::specs::Parts::privileges_in_order))]
pub fn write_privileges(values: &List<Privilege>, out: &mut Vec<u8>) -> Result<(), Memory>
    requires { privileges_in_order.IsSpellable values.now }
    ensures { OnOk result (out.new.items ≡ out.old.items ++ privileges_in_order.spelled values.now) }
{
    write_list_u8(values, out)
}

/// Privileges in the order of their numbers.
#[tactic(auto, unfolding(crate::specs::descent::Parts::privileges_first))]
pub fn read_privileges(alloc: Global, bytes: &[u8]) -> Result<(List<Privilege>, &[u8]), ReadError>
    ensures { Gives (λ x. (x.0, x.1.now)) result (privileges_first bytes.now) }
{
    let (values, rest) = read_list_u8::<Privilege>(alloc, bytes)?;
    if !is_rising(values.as_slice()) {
        return Err(ReadError::NoFrame);
    }
    Ok((values, rest))
}

fn is_rising(privileges: &[Privilege]) -> bool
    ensures { result ≡ is_rising 0 privileges.now }
{
    let mut last = 0;
    for privilege in privileges {
        if privilege.code() <= last {
            return false;
        }
        last = privilege.code();
    }
    true
}
