//! Moments as texts.
ghost use Rattle.std.specs.Prelude.{◌≡◌, ◌+◌, ◌/◌, ◌%◌, ◌<◌, min, ◌≤◌};
ghost use Rattle.au_base.specs.Calendar.{IsCivil};
ghost use Rattle.au_base.specs.Limits.{LAST_MOMENT};
ghost use Rattle.au_base.specs.Moments.{IsMomentText, civil_text, text_of_moment};

use crate::calendar::{Civil, LAST_MOMENT, civil_of};

/// The text of a moment, in microseconds since 1970-01-01 00:00:00 UTC, as
/// `YYYY-MM-DD HH:MM:SS.ffffff`; the text of the last moment where the moment is over it.
pub fn moment_text(moment: u64) -> [u8; 26]
    ensures text { result ≡ text_of_moment (min moment LAST_MOMENT) }
    ensures told { IsMomentText (min moment LAST_MOMENT) result }
{
    text_at(moment.min(LAST_MOMENT))
}

fn text_at(moment: u64) -> [u8; 26]
    requires { moment ≤ LAST_MOMENT }
    ensures told { IsMomentText moment result }
    ensures value { result ≡ text_of_moment moment }
{
    text_of(civil_of(moment))
}

fn text_of(c: Civil) -> [u8; 26]
    requires { IsCivil c }
    ensures { result ≡ civil_text c }
{
    [
        tens(c.year / 100),
        ones(c.year / 100),
        tens(c.year % 100),
        ones(c.year % 100),
        b'-',
        tens(c.month),
        ones(c.month),
        b'-',
        tens(c.day),
        ones(c.day),
        b' ',
        tens(c.hour),
        ones(c.hour),
        b':',
        tens(c.minute),
        ones(c.minute),
        b':',
        tens(c.second),
        ones(c.second),
        b'.',
        tens(c.micro / 10_000),
        ones(c.micro / 10_000),
        tens(c.micro / 100 % 100),
        ones(c.micro / 100 % 100),
        tens(c.micro % 100),
        ones(c.micro % 100),
    ]
}

fn tens(n: u32) -> u8
    requires { n < 100 }
    ensures { result ≡ 48 + n / 10 }
{
    b'0' + (n / 10) as u8
}

fn ones(n: u32) -> u8
    ensures { result ≡ 48 + n % 10 }
{
    b'0' + (n % 10) as u8
}
