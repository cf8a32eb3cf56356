//! Statements (SQL Language Reference, "SQL Statements").

use crate::{
    Audit, Call, Count, CreatePolicy, CreateTable, Delete, GrantStatement, Insert, Password,
    Select, Update,
};
use au_base::{List, Name, TableReference};

/// A statement as it is read.
#[derive(Debug, Drop, PartialEq, Eq)]
pub enum Statement {
    Select(Select),
    Count(Count),
    Insert(Insert),
    Update(Update),
    Delete(Delete),
    /// `COMMIT [WORK]`
    Commit,
    /// `ROLLBACK [WORK]`
    Rollback,
    CreateTable(CreateTable),
    /// `DROP TABLE table`
    DropTable {
        table: TableReference,
    },
    /// `CREATE USER name IDENTIFIED BY password`
    CreateUser {
        user: Name,
        password: Password,
    },
    /// `ALTER USER name IDENTIFIED BY password`
    AlterUser {
        user: Name,
        password: Password,
    },
    /// `DROP USER name`
    DropUser {
        user: Name,
    },
    /// `CREATE ROLE name`
    CreateRole {
        role: Name,
    },
    /// `DROP ROLE name`
    DropRole {
        role: Name,
    },
    /// GRANT or REVOKE.
    Grant(GrantStatement),
    CreatePolicy(CreatePolicy),
    /// `DROP AUDIT POLICY name`
    DropPolicy {
        policy: Name,
    },
    Audit(Audit),
    /// `NOAUDIT POLICY name [BY name {, name}]`
    Noaudit {
        policy: Name,
        users: Option<List<Name>>,
    },
    Call(Call),
}
