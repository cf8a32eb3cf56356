//! Definitions of tables (SQL Language Reference, "CREATE TABLE").

use au_base::{Column, List, Name, TableReference};

/// A column or a primary key of a table.
#[derive(Debug, Drop, PartialEq, Eq)]
pub enum Element {
    /// `name type [NOT NULL] [PRIMARY KEY]`; the column is `not_null` where NOT NULL is written.
    Column { column: Column, primary_key: bool },
    /// `PRIMARY KEY ( name {, name} )`
    PrimaryKey(List<Name>),
}

/// `CREATE TABLE table ( element {, element} )`, at least one of them a column.
#[derive(Debug, Drop, PartialEq, Eq)]
pub struct CreateTable {
    pub table: TableReference,
    pub elements: List<Element>,
}
