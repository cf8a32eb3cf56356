//! What an image tells of events.

use au_base::Stamp;
use au_catalog::Record;

/// What an image tells of events: of a trail the records that a purge leaves, all of them where there
/// is none, and others behind them; and the last stamp. It is lent, and nothing of it is copied.
#[derive(Clone, Copy)]
pub struct Told<'a> {
    /// The records of the trail, oldest first.
    pub trail: &'a [Record],
    /// Of a purge: the records stamped before this moment go, or all of them where it names none.
    pub purge: Option<Option<Stamp>>,
    /// The records behind those that stay.
    pub records: &'a [Record],
    pub last: Stamp,
}
