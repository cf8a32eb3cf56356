//! The last stamp.
ghost use Rattle.std.specs.Prelude.{◌≡◌, if◌then◌else◌};
ghost use Rattle.au_step.specs.Step.{is_nothing};

use au_base::{List, Stamp};
use au_entries::{Change, Record};

/// Nothing is changed, purged or recorded.
pub(crate) fn is_nothing(
    changes: &List<Change>,
    purge: &Option<Option<Stamp>>,
    records: &List<Record>,
) -> bool
    ensures { result ≡ is_nothing changes.now purge.now records.now }
{
    changes.is_empty() && purge.is_none() && records.is_empty()
}

/// The last stamp after an event that changes, purges and records this: the event's, where there is
/// some of it.
pub(crate) fn last_after(
    last: Stamp,
    stamp: Stamp,
    changes: &List<Change>,
    purge: &Option<Option<Stamp>>,
    records: &List<Record>,
) -> Stamp
    ensures { result ≡ (if is_nothing changes.now purge.now records.now then last else stamp) }
{
    if is_nothing(changes, purge, records) {
        last
    } else {
        stamp
    }
}
