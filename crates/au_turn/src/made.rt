//! What tells the entries that a holder made.
ghost use Rattle.std.specs.Prelude.{List};

use crate::held::Held;

/// A value that tells lists of entries of a held `T`.
pub trait Made<T: Held> {
    // The value tells the list. Where it tells several, `give_back` picks one of them.
    ghost tells: { Self → List T.Entry → Type 0 };
}
