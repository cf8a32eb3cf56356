//! What comes next of a script.

/// What comes next of a script.
#[derive(Drop)]
pub(crate) enum Line {
    /// A line, without the LF that ends it.
    Ended(Vec<u8>),
    /// What stands behind the last LF, where that isn't nothing.
    Last(Vec<u8>),
    /// No line is left.
    End,
    /// A line that has more bytes than a line may have, whether or not it ends.
    Overlong,
    /// The source failed.
    Failed,
    /// The script has more bytes than a script may have.
    Beyond,
}
