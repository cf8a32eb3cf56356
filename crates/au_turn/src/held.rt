//! Values that stand for lists of entries.
ghost use Rattle.std.specs.Prelude.{List};

/// A value that stands for lists of entries, its history.
pub trait Held {
    /// What one of its events leaves in the history.
    type Entry;

    // The value stands for the list: which value a history leads to is a relation.
    ghost stands: { Self → List Self.Entry → Type 0 };

    // One list that the value stands for, with which a history begins.
    ghost first: { Self → List Self.Entry };

    /// The law of `first`. The body is empty.
    fn begin(&self)
        ensures { stands self.now (first self.now) };
}
