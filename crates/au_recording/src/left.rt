//! What auditing leaves of events.

use au_base::List;
use au_entries::{KeptResults, Record};

/// What auditing leaves of an event.
#[derive(Debug, Drop, PartialEq, Eq)]
pub struct Left {
    /// Its records, in the order of the trail.
    pub records: List<Record>,
    /// The results of conditions that are kept after it, those of its session and those of the
    /// instance.
    pub results: KeptResults,
}
