//! What was asked of a sample's store.

/// What was asked of a sample's store.
#[derive(Clone, Copy)]
pub(crate) struct Asked {
    /// How many asks there were.
    pub(crate) count: u64,
    /// The number in the answer to the last one.
    pub(crate) high: u64,
}
