//! What policies are asked about a statement.

use au_base::{Action, Code, List, Name, Privilege, TableName};

/// What is known of a statement when policies are asked.
#[derive(Debug, Drop, PartialEq, Eq)]
pub struct Facts {
    pub user: Name,
    pub action: Action,
    /// The tables that it names, whether they are there or not.
    pub tables: List<TableName>,
    /// The system privileges that made it possible.
    pub used: List<Privilege>,
    pub code: Code,
}

/// What the policies demand of a statement.
#[derive(Debug, Drop, PartialEq, Eq)]
pub struct Demanded {
    /// The policies that demand a record, in byte order.
    pub names: List<Name>,
    /// The results of conditions that are kept from now on.
    pub learnt: List<(Name, bool)>,
}
