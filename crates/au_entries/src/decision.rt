//! What is decided of statements.

use crate::change::Change;
use crate::policy::Condition;
use au_base::{ClientNo, Code, List, Name, Privilege, Stamp, TableName};

/// What is decided of a statement.
#[derive(Debug, Drop, PartialEq, Eq)]
pub struct Decision {
    pub code: Code,
    /// The system privileges that made it possible, in the order of their numbers.
    pub used: List<Privilege>,
    /// What it changes of what is kept, in the order in which it happens.
    pub changes: List<Change>,
    /// Of a purge: the records stamped before this moment go, or all of them where it names none.
    pub purge: Option<Option<Stamp>>,
    /// The audit policies whose kept results of conditions are forgotten.
    pub forgets: List<Name>,
}

/// What sessions hold while a statement is decided.
#[derive(Debug, Drop, PartialEq, Eq)]
pub struct Busy {
    /// The users who have a session.
    pub connected: List<Name>,
    /// The tables in which a client has an unsettled change.
    pub tables: List<(TableName, ClientNo)>,
}

/// What became of the condition in a statement.
#[derive(Debug, Drop, PartialEq, Eq)]
pub enum ReadCondition {
    /// The statement has no condition, or its table is absent.
    NotAsked,
    /// It has no reading, or isn't one that a policy may have.
    Bad,
    /// It was read, and is refused with this code.
    Wrong(Code),
    /// It was read as this.
    Tree(Condition),
}
