//! Statements that change rows (SQL Language Reference, "INSERT", "UPDATE" and "DELETE").

use crate::Expr;
use au_base::{List, Name, TableReference};

/// `INSERT INTO table [( name {, name} )] VALUES ( sum {, sum} )`
#[derive(Debug, Drop, PartialEq, Eq)]
pub struct Insert {
    pub table: TableReference,
    pub columns: Option<List<Name>>,
    pub values: List<Expr>,
}

/// `name = sum`
#[derive(Debug, Drop, PartialEq, Eq)]
pub struct Assignment {
    pub column: Name,
    pub value: Expr,
}

/// `UPDATE table SET name = sum {, name = sum} [WHERE condition]`
#[derive(Debug, Drop, PartialEq, Eq)]
pub struct Update {
    pub table: TableReference,
    pub assignments: List<Assignment>,
    pub condition: Option<Expr>,
}

/// `DELETE [FROM] table [WHERE condition]`
#[derive(Debug, Drop, PartialEq, Eq)]
pub struct Delete {
    pub table: TableReference,
    pub condition: Option<Expr>,
}
