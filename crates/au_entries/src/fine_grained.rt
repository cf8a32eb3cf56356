//! Fine-grained policies (PL/SQL Packages and Types Reference, "DBMS_FGA").

use crate::policy::Condition;
use au_base::{List, Name, TableName};

/// The name of a fine-grained policy, which its table is a part of.
#[derive(Debug, Drop, PartialEq, Eq)]
pub struct FgaName {
    pub table: TableName,
    pub policy: Name,
}

/// A fine-grained policy: statements that touch its rows are recorded.
#[derive(Debug, Drop, PartialEq, Eq)]
pub struct FgaPolicy {
    pub name: FgaName,
    /// Which rows are meant; all of them without one.
    pub condition: Option<Condition>,
    /// The relevant columns.
    pub columns: List<Name>,
    /// Whether all relevant columns have to be named, and not only one of them.
    pub all: bool,
    /// The kinds of statements: 1 for SELECT, 2 for INSERT, 4 for UPDATE and 8 for DELETE, summed.
    pub types: u8,
    pub enabled: bool,
}
