//! Tables that were created.

use au_base::{Column, List, TableName};

/// A table that was created.
#[derive(Debug, Drop, PartialEq, Eq)]
pub struct Table {
    pub name: TableName,
    pub columns: List<Column>,
    /// The places of the key's columns, from 0.
    pub key: List<u32>,
}
