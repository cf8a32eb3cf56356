//! What a pass knows.
use std::collections::LinkedList;

/// What a pass knows. No value of it is made; contracts see its lists as they are.
pub struct View<E> {
    /// The history, as far as the pass knows it.
    pub seen: LinkedList<E>,
    /// The entries that it made.
    pub mine: LinkedList<E>,
    /// While it holds the value: the history that it is about to make known.
    pub next: LinkedList<E>,
    /// Within a join: what its two passes had seen.
    pub earlier: LinkedList<LinkedList<E>>,
    /// How often it, and the passes that were joined to it, gave the value back.
    pub turns: u64,
    /// It holds the value.
    pub held: bool,
    /// It holds the value for good, and has put back the slot with nothing in it.
    pub emptied: bool,
    /// It was joined to another pass.
    pub spent: bool,
}
