//! What a sample comes to.

/// What a sample comes to.
#[derive(Clone, Copy, Debug, PartialEq, Eq)]
pub struct Summary {
    /// How many asks there were.
    pub asks: u64,
    /// The rows of the table that was filled, once they are committed.
    pub rows: u64,
    /// The number that the last ask was answered.
    pub high: u64,
    /// Records of the trail.
    pub records: u64,
    /// Those of them that fine-grained policies demand.
    pub fine: u64,
}
