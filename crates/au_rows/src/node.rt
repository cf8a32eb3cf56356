//! Versions in chains.

use crate::version::Version;

/// A version in its slot. The versions of one hash are a chain.
#[derive(Debug, Drop)]
pub struct Node {
    pub version: Version,
    /// The slot of the next version with the same hash.
    pub below: Option<u32>,
}
