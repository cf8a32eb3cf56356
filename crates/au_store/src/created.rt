//! What making a store answers.

/// What making a store answers.
#[derive(Clone, Copy)]
pub enum Created {
    /// The store is there, and is safe from a crash.
    Done,
    /// The disk is formatted already. Nothing was written.
    Formatted,
    /// The disk failed. The store can be made again.
    Disk,
    /// There was no memory. The disk wasn't called.
    Memory,
}
