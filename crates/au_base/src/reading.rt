//! Texts that are read as moments.
ghost use Rattle.std.specs.Prelude.{◌≡◌, ◌<◌, ℕ, ◌^◌, IfSome, MatchOption, length, min, true, if◌then◌else◌, Some, None, ◌≤◌, ◌*◌};
ghost use Rattle.std.specs.Char.{is_ascii_digit};
ghost use Rattle.std.specs.List.{list_all};
ghost use Rattle.std.specs.Str.Parse.{digits_value};
ghost use Rattle.au_base.specs.Limits.{LAST_MOMENT};
ghost use Rattle.au_base.specs.Moments.{IsPair, TellsMoment, TellsNoMoment, fraction_of};

use crate::calendar::{LAST_MOMENT, day_number};
use crate::moment::moment_text;

/// The moment that a text is read as: `YYYY-MM-DD HH:MM:SS`, with a point and 1 to 6 digits or
/// without, a real date from 1970 to 9999, hours to 23, minutes and seconds to 59. `None` exactly
/// where the text has not this form.
pub fn read_moment(text: &[u8]) -> Option<u64>
    ensures cases { MatchOption result (TellsNoMoment text.now) (TellsMoment text.now) }
    ensures last { IfSome result (λ moment. moment ≤ LAST_MOMENT) }
{
    let [
        y0,
        y1,
        y2,
        y3,
        b'-',
        m0,
        m1,
        b'-',
        d0,
        d1,
        b' ',
        h0,
        h1,
        b':',
        i0,
        i1,
        b':',
        s0,
        s1,
        end @ ..,
    ] = text
    else {
        return None;
    };
    let century = pair(*y0, *y1)?;
    let year = pair(*y2, *y3)?;
    let month = pair(*m0, *m1)?;
    let day = pair(*d0, *d1)?;
    let hour = pair(*h0, *h1)?;
    let minute = pair(*i0, *i1)?;
    let second = pair(*s0, *s1)?;
    let days = day_number(century * 100 + year, month, day)?;
    if hour > 23 || minute > 59 || second > 59 {
        return None;
    }
    let micro = fraction(end)?;
    let hours = days * 24 + u64::from(hour);
    let minutes = hours * 60 + u64::from(minute);
    Some((minutes * 60 + u64::from(second)) * 1_000_000 + u64::from(micro))
}

// The number that two digits are.
fn pair(tens: u8, ones: u8) -> Option<u32>
    ensures { MatchOption result ((n : ℕ) → ¬ (IsPair tens ones n)) (IsPair tens ones) }
{
    if tens.is_ascii_digit() && ones.is_ascii_digit() {
        Some(u32::from(tens - b'0') * 10 + u32::from(ones - b'0'))
    } else {
        None
    }
}

// The microseconds that a fraction of a second is.
fn fraction(end: &[u8]) -> Option<u32>
    ensures value { result ≡ fraction_of end.now }
    ensures small { IfSome result (λ micro. micro < 1_000_000) }
{
    match end {
        [] => Some(0),
        [b'.', digits @ ..] if !digits.is_empty() && digits.len() <= 6 => {
            let number = number_of(digits)?;
            Some(number * 10u32.pow(6 - digits.len() as u32))
        }
        _ => None,
    }
}

// The number that at most six digits are.
fn number_of(digits: &[u8]) -> Option<u32>
    requires { length digits.now ≤ 6 }
    ensures value { result ≡ (if list_all is_ascii_digit digits.now then Some (digits_value 10 digits.now) else None) }
    ensures small { IfSome result (λ number. number < 10 ^ length digits.now) }
{
    let mut number = 0u32;
    for digit in digits {
        if !digit.is_ascii_digit() {
            return None;
        }
        number = number * 10 + u32::from(*digit - b'0');
    }
    Some(number)
}

/// A law: the text of a moment is read as that moment.
pub fn read_back(moment: u64) -> Option<u64>
    ensures { result ≡ Some (min moment LAST_MOMENT) }
{
    read_moment(moment_text(moment).as_slice())
}

/// A law: a text of 26 bytes that is read as a moment is the text of that moment.
pub fn written_back(text: &[u8]) -> Option<[u8; 26]>
    requires { length text.now ≡ 26 }
    ensures { IfSome result (λ written. written ≡ text.now) }
{
    match read_moment(text) {
        Some(moment) => Some(moment_text(moment)),
        None => None,
    }
}
