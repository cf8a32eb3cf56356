//! What a mend answers.

/// What a mend answers.
#[derive(Clone, Copy, Debug, PartialEq, Eq)]
pub enum Mended {
    /// No body is in doubt.
    Done,
    /// The disk failed. What was in doubt still is.
    Disk,
}
