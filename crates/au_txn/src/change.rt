//! Changes of rows.

use au_base::{Cell, List, RowNo, TableName};

/// A change of a row: what its client saw of the row before it, and what it makes of the row. Where
/// there is no content, there is no such row.
#[derive(Debug, Drop)]
pub struct RowChange {
    pub table: TableName,
    pub row: RowNo,
    pub old: Option<List<Cell>>,
    pub new: Option<List<Cell>>,
}
