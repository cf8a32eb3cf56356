//! Frames.

use au_base::{List, Stamp};
use au_entries::{Change, Record};

/// What one event, or an image of all that is kept, writes to the journal.
#[derive(Debug, Drop, PartialEq, Eq)]
pub enum Frame {
    /// All that is kept, as changes of what is empty, with the stamp of the last event.
    Image {
        last: Stamp,
        changes: List<Change>,
        records: List<Record>,
    },
    /// What an event changes, in the order in which it happens, with its records.
    Event {
        stamp: Stamp,
        changes: List<Change>,
        records: List<Record>,
    },
    /// A purge of the trail: what it changes first, then the records stamped before `before` go, or
    /// all of them where it names none, then come its own records.
    Purge {
        stamp: Stamp,
        before: Option<Stamp>,
        changes: List<Change>,
        records: List<Record>,
    },
}
