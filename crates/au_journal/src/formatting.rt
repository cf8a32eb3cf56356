//! What a format answers.

/// What a format answers.
#[derive(Clone, Copy, Debug, PartialEq, Eq)]
pub enum Formatting {
    /// Area A is selected, and stands for the one body.
    Done,
    /// The selected area was formatted already. Nothing was written.
    Formatted,
    /// The disk failed. It can be made again.
    Disk,
}
