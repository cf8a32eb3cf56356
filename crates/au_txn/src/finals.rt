//! What becomes of rows.

use au_base::{Cell, List, RowNo, TableName};

/// The content that a row has in the end. Where there is no content, the row is gone.
#[derive(Debug, Drop)]
pub struct Final {
    pub table: TableName,
    pub row: RowNo,
    pub content: Option<List<Cell>>,
}
