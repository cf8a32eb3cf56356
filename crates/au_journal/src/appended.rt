//! What an append answers.

/// What an append answers.
#[derive(Clone, Copy, Debug, PartialEq, Eq)]
pub enum Appended {
    /// The body stands, and is safe from a crash.
    Done,
    /// The disk failed. What was written is in doubt until a mend succeeds.
    Disk,
    /// The area would be `needed` bytes long, with one gate behind the frame, over `limit`.
    Full { needed: u64, limit: u64 },
}
