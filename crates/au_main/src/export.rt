//! The commands that write what a store keeps.

/// What is written of a store, which isn't opened for it.
#[derive(Clone, Copy)]
pub enum Export {
    /// The trail as comma-separated values.
    Trail,
    /// The counts of what is kept.
    Check,
}
