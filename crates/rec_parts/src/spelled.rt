//! Values that have a spelling.
ghost use Rattle.std.specs.Prelude.{◌≡◌, ◌++◌, ◌∷◌, OnOk};
ghost use Rattle.std.specs.List.{flat_map, AllByRecursion};
ghost use Rattle.rec_parts.specs.Spelling.{Spelling, pair, option};
ghost use Rattle.rec_parts.specs.Given.{Gives};
ghost use Rattle.rec_parts.specs.descent.Reading.{Front, many_first, option_first, pair_first};

use crate::numbers::{read_u8, write_u8};
use crate::read_error::ReadError;
use au_base::{List, Memory};
use std::alloc::Global;

/// A value that stands in frames in one way.
pub trait Spelled: Drop + Sized {
    ghost spelling: { Spelling Self };

    ghost first: { Front Self };

    /// Writes the value at the end.
    fn write(&self, out: &mut Vec<u8>) -> Result<(), Memory>
        requires { spelling.IsSpellable self.now }
        ensures { OnOk result (out.new.items ≡ out.old.items ++ spelling.spelled self.now) };

    /// The value at the front, and the bytes behind it.
    fn read(alloc: Global, bytes: &[u8]) -> Result<(Self, &[u8]), ReadError>
        ensures { Gives (λ x. (x.0, x.1.now)) result (first bytes.now) };
}

/// Writes the values at the end, one behind the other.
pub(crate) fn write_many<T: Spelled>(values: &[T], out: &mut Vec<u8>) -> Result<(), Memory>
    requires { AllByRecursion T.spelling.IsSpellable values.now }
    ensures { OnOk result (out.new.items ≡ out.old.items ++ flat_map T.spelling.spelled values.now) }
{
    for value in values {
        value.write(out)?;
    }
    Ok(())
}

/// So many values at the front, and the bytes behind them. Memory is taken for what is read, and not
/// for the count.
pub(crate) fn read_many<T: Spelled>(
    alloc: Global,
    count: u32,
    bytes: &[u8],
) -> Result<(List<T>, &[u8]), ReadError>
    ensures { Gives (λ x. (x.0, x.1.now)) result (many_first T.first count bytes.now) }
{
    let mut values = List::new(alloc);
    let mut rest = bytes;
    for _ in 0..count {
        let (value, after) = T::read(alloc, rest)?;
        values.push(value)?;
        rest = after;
    }
    Ok((values, rest))
}

impl<A: Spelled, B: Spelled> Spelled for (A, B) {
    ghost spelling = { pair A.spelling B.spelling };

    ghost first = { pair_first A.first B.first };

    fn write(&self, out: &mut Vec<u8>) -> Result<(), Memory> {
        self.0.write(out)?;
        self.1.write(out)
    }

    fn read(alloc: Global, bytes: &[u8]) -> Result<(Self, &[u8]), ReadError> {
        let (first, rest) = A::read(alloc, bytes)?;
        let (second, rest) = B::read(alloc, rest)?;
        Ok(((first, second), rest))
    }
}

impl<T: Spelled> Spelled for Option<T> {
    ghost spelling = { option T.spelling };

    ghost first = { option_first T.first };

    fn write(&self, out: &mut Vec<u8>) -> Result<(), Memory> {
        match self {
            None => write_u8(out, 0),
            Some(value) => {
                write_u8(out, 1)?;
                value.write(out)
            }
        }
    }

    fn read(alloc: Global, bytes: &[u8]) -> Result<(Self, &[u8]), ReadError> {
        match bytes {
            [0, rest @ ..] => Ok((None, rest)),
            [1, rest @ ..] => {
                let (value, rest) = T::read(alloc, rest)?;
                Ok((Some(value), rest))
            }
            _ => Err(ReadError::NoFrame),
        }
    }
}

/// Writes a sign and the value behind it.
pub fn write_one<A: Spelled>(out: &mut Vec<u8>, sign: u8, value: &A) -> Result<(), Memory>
    requires { A.spelling.IsSpellable value.now }
    ensures { OnOk result (out.new.items ≡ out.old.items ++ sign ∷ A.spelling.spelled value.now) }
{
    write_u8(out, sign)?;
    value.write(out)
}

/// Writes a sign and the two values behind it.
pub fn write_two<A: Spelled, B: Spelled>(
    out: &mut Vec<u8>,
    sign: u8,
    first: &A,
    second: &B,
) -> Result<(), Memory>
    requires { (pair A.spelling B.spelling).IsSpellable (first.now, second.now) }
    ensures { OnOk result (out.new.items ≡ out.old.items ++ sign ∷ (pair A.spelling B.spelling).spelled (first.now, second.now)) }
{
    write_u8(out, sign)?;
    first.write(out)?;
    second.write(out)
}

/// Writes a sign and the three values behind it.
pub fn write_three<A: Spelled, B: Spelled, C: Spelled>(
    out: &mut Vec<u8>,
    sign: u8,
    first: &A,
    second: &B,
    third: &C,
) -> Result<(), Memory>
    requires { (pair A.spelling (pair B.spelling C.spelling)).IsSpellable (first.now, (second.now, third.now)) }
    ensures { OnOk result (out.new.items
        ≡ out.old.items ++ sign ∷ (pair A.spelling (pair B.spelling C.spelling)).spelled (first.now, (second.now, third.now))) }
{
    write_u8(out, sign)?;
    first.write(out)?;
    second.write(out)?;
    third.write(out)
}
