//! A turn, which hands a value to one pass at a time.
ghost use Rattle.std.specs.Prelude.{◌≡◌};

use crate::held::Held;
use crate::rule::InTurn;
use crate::view::View;
use atomic_table::Table;
use std::alloc::Global;
use std::snapshot::Snapshot;

mod calls;

/// A value that one pass at a time holds.
pub struct Turn<T: Held> {
    table: Table<Option<T>, View<T::Entry>, Snapshot<T>, InTurn, Global>,
    ghost one_word: { table.shared.table_id.words ≡ 1 },
    ghost one_slot: { table.shared.table_id.slots ≡ 1 },
}
