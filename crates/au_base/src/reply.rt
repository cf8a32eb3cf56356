//! What clients are answered.

use crate::{Cell, Code, List, Text};

/// The answer to an ask.
#[derive(Debug, Drop, PartialEq, Eq)]
pub struct Reply {
    pub code: Code,
    /// The names of the columns of a query.
    pub columns: List<Text>,
    /// How many rows a query gives, or a statement changed; else 0.
    pub count: u64,
    /// The rows of a query, each with one cell a column.
    pub rows: List<List<Cell>>,
}

/// What is said to a client that asked.
#[derive(Debug, Drop, PartialEq, Eq)]
pub enum Said {
    /// The statement was done, or refused by its code.
    Replied(Reply),
    /// The disk failed. Nothing changed, as far as the client sees.
    Disk,
    /// The journal has no room for the statement's frame: it would need `needed` bytes of `limit`.
    Full { needed: u64, limit: u64 },
    /// There was no memory. Nothing changed.
    Memory,
}
