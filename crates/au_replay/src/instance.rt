//! The archive timestamp, the start of an instance, and the stamps of frames.
ghost use Rattle.std.specs.Prelude.{◌≡◌, ◌↔◌, ◌≤◌, ◌<◌, ◌⊎◌, IsTrue};
ghost use Rattle.au_base.specs.Limits.{INSTANCES};
ghost use Rattle.au_entries.specs.Replaying.{IsArchive};

use au_base::limits::INSTANCES;
use au_base::{LAST_MOMENT, Stamp};

/// Whether the archive timestamp may be set so or taken away: it isn't over the last moment.
pub fn archive_goes_on(stamp: Option<Stamp>) -> bool
    ensures { IsTrue result ↔ IsArchive stamp }
{
    match stamp {
        Some(stamp) => stamp.0 <= LAST_MOMENT,
        None => true,
    }
}

/// Whether an instance with this number may begin after the one before: it is 999,999,999 at most,
/// and over the one before, but in an image any.
pub fn start_goes_on(image: bool, before: u32, instance: u32) -> bool
    ensures { IsTrue result ↔ ((instance ≤ INSTANCES) × (IsTrue image ⊎ (before < instance))) }
{
    instance <= INSTANCES && (image || before < instance)
}

/// Whether the stamp of a frame isn't under the last stamp.
pub fn is_from_last(last: Stamp, stamp: Stamp) -> bool
    ensures { IsTrue result ↔ (last.0 ≤ stamp.0) }
{
    last.0 <= stamp.0
}
