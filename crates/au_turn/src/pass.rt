//! A pass of a turn.
use crate::held::Held;
use crate::view::View;
use atomic_table::Seat;

/// What a caller of a turn knows of its history. It has no bytes. `join` and `close` alone spend it.
pub struct Pass<T: Held> {
    pub(crate) seat: Seat<Option<T>, View<T::Entry>>,
}
