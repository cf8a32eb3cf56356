//! The numbers of records within their session.
ghost use Rattle.std.specs.Prelude.{◌≡◌, ◌+◌, min};
ghost use Rattle.au_base.specs.Limits as limits;

use au_base::limits::SESSION_COUNT;

/// The number that stands so many places behind this one; the numbers stop at 999,999,999.
pub fn entry_behind(entry: u32, places: usize) -> u32
    ensures { result ≡ min (entry + places) limits.SESSION_COUNT }
{
    u64::from(entry)
        .saturating_add(places as u64)
        .min(u64::from(SESSION_COUNT)) as u32
}
