//! What comes of asking a source for more.

/// What comes of asking a source for more.
#[derive(Clone, Copy)]
pub(crate) enum Refill {
    /// Bytes were taken.
    More,
    /// Nothing is left.
    End,
    /// The source failed.
    Failed,
    /// The script has as many bytes as it may have, and the source gave more.
    Beyond,
}
