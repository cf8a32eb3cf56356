//! Changes of open transactions.

use au_base::{ClientNo, RowNo};

/// A change that is neither committed nor undone.
#[derive(Clone, Copy, Debug)]
pub struct Unsettled {
    pub by: ClientNo,
    /// The number of the row's table.
    pub table: u32,
    pub number: RowNo,
    /// The version with the new content. `None` where the row is gone.
    pub slot: Option<u32>,
}
