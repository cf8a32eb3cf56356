//! Moments as dates and times of the civil calendar.
ghost use Rattle.std.specs.Prelude.{◌≡◌, ◌≤◌, IfSome, MatchOption};
ghost use Rattle.au_base.specs.Calendar.{IsCivil, IsDay, days_to, moment_of};
ghost use Rattle.au_base.specs.Limits.{LAST_MOMENT};

use jiff_core::civil::Date;

/// The last moment of the year 9999, in microseconds since 1970-01-01 00:00:00 UTC.
pub const LAST_MOMENT: u64 = 253_402_300_799_999_999;

const DAY_SECONDS: u64 = 86_400;

// The days from the first date of the crate `jiff` to 1970-01-01.
const DAYS_BEFORE: u32 = 4_371_587;

/// A date of the calendar and a time of day, UTC.
#[derive(Clone, Copy, Debug)]
pub struct Civil {
    /// 1970 to 9999.
    pub year: u32,
    /// From 1.
    pub month: u32,
    /// From 1.
    pub day: u32,
    pub hour: u32,
    pub minute: u32,
    pub second: u32,
    /// Microseconds of the second.
    pub micro: u32,
}

/// The date and the time of a moment.
pub fn civil_of(moment: u64) -> Civil
    requires { moment ≤ LAST_MOMENT }
    ensures civil { IsCivil result }
    ensures value { moment_of result ≡ moment }
{
    let seconds = moment / 1_000_000;
    let (year, month, day) = date_of(seconds / DAY_SECONDS);
    let second = seconds % DAY_SECONDS;
    Civil {
        year,
        month,
        day,
        hour: (second / 3_600) as u32,
        minute: (second / 60 % 60) as u32,
        second: (second % 60) as u32,
        micro: (moment % 1_000_000) as u32,
    }
}

// Year, month and day of the date that many days after 1970-01-01.
fn date_of(days: u64) -> (u32, u32, u32)
    requires { days ≤ 2_932_896 }
    ensures day { IsDay result.0 result.1 result.2 }
    ensures value { days_to result.0 result.1 result.2 ≡ days }
{
    let date = Date::from_days_since_min(days as u32 + DAYS_BEFORE);
    (
        u32::from(date.year.unsigned_abs()),
        u32::from(date.month),
        u32::from(date.day),
    )
}

/// The days from 1970-01-01 to a date, if the calendar has it.
pub fn day_number(year: u32, month: u32, day: u32) -> Option<u64>
    ensures value { MatchOption result (¬ (IsDay year month day)) (λ days. IsDay year month day × (days ≡ days_to year month day)) }
    ensures bound { IfSome result (λ days. days ≤ 2_932_896) }
{
    if year < 1970 || year > 9999 || month > 12 || day > 31 {
        return None;
    }
    match Date::new(year as i16, month as i8, day as i8) {
        Ok(date) => Some(u64::from(date.days_since_min() - DAYS_BEFORE)),
        Err(_) => None,
    }
}
