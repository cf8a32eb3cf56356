//! Contents of rows.

use au_base::{Cell, List, RowNo};

/// A content of a row.
#[derive(Debug, Drop)]
pub struct Version {
    /// The number of the row's table.
    pub table: u32,
    pub number: RowNo,
    pub cells: List<Cell>,
    /// The number under which it is indexed.
    pub hash: u64,
}
