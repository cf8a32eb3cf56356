//! What a statement did to rows.

use au_base::{Action, Cell, List, Name, TableName};

/// What a statement that was done did to rows. A table may stand in both lists more than once, as it
/// may in FROM.
#[derive(Drop)]
pub struct RowFacts<'a> {
    pub action: Action,
    /// The rows that it touched of each table: those that take part in what a SELECT gives, the new
    /// row of an INSERT, the old and the new rows of an UPDATE, the old rows of a DELETE.
    pub touched: List<(TableName, List<&'a [Cell]>)>,
    /// The columns that it references of each table.
    pub named: List<(TableName, List<Name>)>,
}
