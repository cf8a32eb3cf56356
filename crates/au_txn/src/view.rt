//! What a client sees of a table.

use au_base::{Cell, RowNo};

/// The rows of a table that a client sees, by their numbers.
#[derive(Drop)]
pub struct View<'a> {
    pub rows: Vec<(RowNo, &'a [Cell])>,
}
