//! The names of rows.

use au_base::{RowNo, TableName};

/// The name of a row: its table, and its number there.
#[derive(Debug, Drop, PartialEq, Eq, PartialOrd, Ord)]
pub struct RowName {
    pub table: TableName,
    pub row: RowNo,
}
