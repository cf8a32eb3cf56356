//! Changes of open transactions, as they are kept.

use crate::unsettled::Unsettled;

/// A change of an open transaction. The changes of one lane are a chain.
#[derive(Clone, Copy, Debug)]
pub struct Entry {
    pub change: Unsettled,
    /// Where its lane's change before it is kept.
    pub below: Option<u32>,
}
