//! A frame by its parts.

use au_base::{List, Stamp};
use au_entries::{Change, Record};

/// What a frame writes, whichever it is: whether it is an image, its stamp, its purge where it is one,
/// its changes and its records.
#[derive(Drop)]
pub(crate) struct Parts {
    pub image: bool,
    pub stamp: Stamp,
    pub purge: Option<Option<Stamp>>,
    pub changes: List<Change>,
    pub records: List<Record>,
}
