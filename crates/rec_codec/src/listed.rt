//! Changes and records, in lists behind their counts.
ghost use Rattle.std.specs.Prelude.{◌≡◌, ◌++◌, OnOk};
ghost use Rattle.std.specs.Int.{w32};
ghost use Rattle.std.specs.List.{flat_map, AllByRecursion};
ghost use Rattle.rec_parts.specs.Spelling.{Spelling, counted, number};
ghost use Rattle.rec_parts.specs.Given.{Gives};
ghost use Rattle.rec_parts.specs.descent.Reading.{Front, counted_first, many_first, number_first};

use au_base::{List, Memory};
use rec_parts::{ReadError, read_u32, write_u32};
use std::alloc::Global;

/// What a frame has a list of: changes, and records.
pub(crate) trait Listed: Drop + Sized {
    ghost spelling: { Spelling Self };

    ghost first: { Front Self };

    /// Writes the value at the end.
    fn write(&self, out: &mut Vec<u8>) -> Result<(), Memory>
        requires { spelling.IsSpellable self.now }
        ensures { OnOk result (out.new.items ≡ out.old.items ++ spelling.spelled self.now) };

    /// The value at the front, and the bytes behind it.
    fn read(alloc: Global, bytes: &[u8]) -> Result<(Self, &[u8]), ReadError>
        ensures { Gives (λ x. (x.0, x.1.now)) result (first bytes.now) };
}

/// Writes a count of four bytes, and the values.
pub(crate) fn write_list<T: Listed>(values: &List<T>, out: &mut Vec<u8>) -> Result<(), Memory>
    requires { (counted (number w32) T.spelling).IsSpellable values.now }
    ensures { OnOk result (out.new.items ≡ out.old.items ++ (counted (number w32) T.spelling).spelled values.now) }
{
    write_u32(out, values.len() as u32)?;
    write_each(values.as_slice(), out)
}

/// Writes the values at the end, one behind the other.
fn write_each<T: Listed>(values: &[T], out: &mut Vec<u8>) -> Result<(), Memory>
    requires { AllByRecursion T.spelling.IsSpellable values.now }
    ensures { OnOk result (out.new.items ≡ out.old.items ++ flat_map T.spelling.spelled values.now) }
{
    for value in values {
        value.write(out)?;
    }
    Ok(())
}

/// The values behind a count of four bytes.
pub(crate) fn read_list<T: Listed>(
    alloc: Global,
    bytes: &[u8],
) -> Result<(List<T>, &[u8]), ReadError>
    ensures { Gives (λ x. (x.0, x.1.now)) result (counted_first (number_first w32) T.first bytes.now) }
{
    let (count, rest) = read_u32(bytes)?;
    read_each(alloc, count, rest)
}

/// So many values at the front, and the bytes behind them. Memory is taken for what is read, and not
/// for the count.
fn read_each<T: Listed>(
    alloc: Global,
    count: u32,
    bytes: &[u8],
) -> Result<(List<T>, &[u8]), ReadError>
    ensures { Gives (λ x. (x.0, x.1.now)) result (many_first T.first count bytes.now) }
{
    let mut values = List::new(alloc);
    let mut rest = bytes;
    for _ in 0..count {
        let (value, after) = T::read(alloc, rest)?;
        values.push(value)?;
        rest = after;
    }
    Ok((values, rest))
}
