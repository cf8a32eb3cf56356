//! The bytes that go through a source, a sink or a link.
ghost use Rattle.std.specs.Prelude.{ℕ, List, Option};

/// What is known of the bytes that go through a source, a sink, or a link, which is both. A source
/// alone is given nothing, and of a sink alone nothing is taken: they tell nothing of that.
pub trait Stream {
    /// The bytes that are left to be taken, where it tells them.
    ghost left: { Self → Option (List ℕ) };

    /// The bytes taken so far, where it tells them.
    ghost taken: { Self → Option (List ℕ) };

    /// The bytes given so far, where it tells them.
    ghost given: { Self → Option (List ℕ) };

    /// How often it has failed, taking and giving together.
    ghost faults: { Self → ℕ };
}
