//! Numbers, the high byte first.
ghost use Rattle.std.specs.Prelude.{◌≡◌, ◌++◌, ◌∷◌, [], length, IfOk, OnOk};
ghost use Rattle.std.specs.Int.{w16, w32, w64, to_be_bytes};
ghost use Rattle.rec_parts.specs.Given.{Gives};
ghost use Rattle.rec_parts.specs.descent.Reading.{byte_first, led_first, nothing_first, number_first, run_first};

use crate::read_error::ReadError;
use au_base::Memory;
use byteorder::{BigEndian, ByteOrder};

pub fn write_u8(out: &mut Vec<u8>, number: u8) -> Result<(), Memory>
    ensures { OnOk result (out.new.items ≡ out.old.items ++ number ∷ []) }
{
    out.push(number)?;
    Ok(())
}

pub(crate) fn write_u16(out: &mut Vec<u8>, number: u16) -> Result<(), Memory>
    ensures { OnOk result (out.new.items ≡ out.old.items ++ to_be_bytes w16 number) }
{
    let mut bytes = [0; 2];
    BigEndian::write_u16(&mut bytes, number);
    out.extend_from_slice(&bytes)?;
    Ok(())
}

pub fn write_u32(out: &mut Vec<u8>, number: u32) -> Result<(), Memory>
    ensures { OnOk result (out.new.items ≡ out.old.items ++ to_be_bytes w32 number) }
{
    let mut bytes = [0; 4];
    BigEndian::write_u32(&mut bytes, number);
    out.extend_from_slice(&bytes)?;
    Ok(())
}

pub fn write_u64(out: &mut Vec<u8>, number: u64) -> Result<(), Memory>
    ensures { OnOk result (out.new.items ≡ out.old.items ++ to_be_bytes w64 number) }
{
    let mut bytes = [0; 8];
    BigEndian::write_u64(&mut bytes, number);
    out.extend_from_slice(&bytes)?;
    Ok(())
}

pub fn read_u8(bytes: &[u8]) -> Result<(u8, &[u8]), ReadError>
    ensures { Gives (λ x. (x.0, x.1.now)) result (byte_first bytes.now) }
{
    match bytes {
        [] => Err(ReadError::NoFrame),
        [number, rest @ ..] => Ok((*number, rest)),
    }
}

pub(crate) fn read_u16(bytes: &[u8]) -> Result<(u16, &[u8]), ReadError>
    ensures { Gives (λ x. (x.0, x.1.now)) result (number_first w16 bytes.now) }
{
    let (front, rest) = read_run(bytes, 2)?;
    Ok((u16::from_be_bytes([front[0], front[1]]), rest))
}

pub fn read_u32(bytes: &[u8]) -> Result<(u32, &[u8]), ReadError>
    ensures { Gives (λ x. (x.0, x.1.now)) result (number_first w32 bytes.now) }
{
    let (front, rest) = read_run(bytes, 4)?;
    let number = u32::from_be_bytes([front[0], front[1], front[2], front[3]]);
    Ok((number, rest))
}

pub(crate) fn read_u64(bytes: &[u8]) -> Result<(u64, &[u8]), ReadError>
    ensures { Gives (λ x. (x.0, x.1.now)) result (number_first w64 bytes.now) }
{
    let (front, rest) = read_run(bytes, 8)?;
    let number = u64::from_be_bytes([
        front[0], front[1], front[2], front[3], front[4], front[5], front[6], front[7],
    ]);
    Ok((number, rest))
}

/// Behind the byte `sign`, which has to stand in front.
pub fn read_sign(bytes: &[u8], sign: u8) -> Result<&[u8], ReadError>
    ensures { Gives (λ x. (tt, x.now)) result (led_first sign nothing_first bytes.now) }
{
    let (first, rest) = read_u8(bytes)?;
    if first != sign {
        return Err(ReadError::NoFrame);
    }
    Ok(rest)
}

/// The next `len` bytes, and those behind them.
pub(crate) fn read_run(bytes: &[u8], len: usize) -> Result<(&[u8], &[u8]), ReadError>
    ensures run { Gives (λ x. (x.0.now, x.1.now)) result (run_first len bytes.now) }
    ensures len { IfOk result (λ x. length x.0.now ≡ len) }
{
    if bytes.len() < len {
        return Err(ReadError::NoFrame);
    }
    Ok(bytes.split_at(len))
}
