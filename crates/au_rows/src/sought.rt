//! What is sought under a key.

use au_base::RowNo;

/// What is sought under a key.
#[derive(Clone, Copy, Debug)]
pub enum Sought {
    /// A version that is what the client sees of its row.
    Seen,
    /// A version that is what the client sees of its row, where that isn't the row with this number.
    Other(RowNo),
    /// A version of a row that another client has changed.
    Locked,
}
