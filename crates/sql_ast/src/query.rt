//! Queries (SQL Language Reference, "SELECT").

use crate::Expr;
use au_base::{List, Name, TableReference};

/// A table in FROM, and its alias where it has one: `[name .] name [name]`.
#[derive(Debug, Drop, PartialEq, Eq)]
pub struct AliasedTable {
    pub table: TableReference,
    pub alias: Option<Name>,
}

/// What a query answers of a combination, and its column alias: `sum [[AS] name]`.
#[derive(Debug, Drop, PartialEq, Eq)]
pub struct Item {
    pub value: Expr,
    pub alias: Option<Name>,
}

/// `* | item {, item}`
#[derive(Debug, Drop, PartialEq, Eq)]
pub enum Items {
    /// `*`, all columns of all tables in order.
    All,
    Listed(List<Item>),
}

/// A further table: `, table`, which has no condition, or `[INNER] JOIN table ON condition`.
#[derive(Debug, Drop, PartialEq, Eq)]
pub struct Join {
    pub table: AliasedTable,
    pub on: Option<Expr>,
}

/// The tables of a query, in order.
#[derive(Debug, Drop, PartialEq, Eq)]
pub struct FromClause {
    pub first: AliasedTable,
    pub joins: List<Join>,
}

/// A column of ORDER BY, under its table's name or alias where that is written:
/// `[name .] name [ASC | DESC]`.
#[derive(Debug, Drop, PartialEq, Eq)]
pub struct SortKey {
    pub table: Option<Name>,
    pub column: Name,
    pub descending: bool,
}

/// `SELECT items FROM from [WHERE condition] [ORDER BY key {, key}]`
#[derive(Debug, Drop, PartialEq, Eq)]
pub struct Select {
    pub items: Items,
    pub from: FromClause,
    pub condition: Option<Expr>,
    pub order: Option<List<SortKey>>,
}

/// `SELECT COUNT ( * ) FROM table [WHERE condition]`
#[derive(Debug, Drop, PartialEq, Eq)]
pub struct Count {
    pub table: AliasedTable,
    pub condition: Option<Expr>,
}
