//! Users and audit policies (SQL Language Reference, "CREATE USER", "CREATE AUDIT POLICY (Unified
//! Auditing)" and "AUDIT (Unified Auditing)").

use au_base::{Action, List, Name, Privilege, TableReference, Text};

/// A password as it is written, and the place of its token in the statement's text, so that the
/// text can be recorded without it.
#[derive(Debug, Drop, PartialEq, Eq)]
pub struct Password {
    pub text: Text,
    pub from: u32,
    pub to: u32,
}

/// An action of an audit policy, on one table where ON follows it.
#[derive(Debug, Drop, PartialEq, Eq)]
pub struct ActionPart {
    pub action: Action,
    pub table: Option<TableReference>,
}

/// How often a policy's condition is evaluated.
#[derive(Clone, Copy, Debug, PartialEq, Eq)]
pub enum Evaluation {
    Statement,
    Session,
    Instance,
}

/// `WHEN literal EVALUATE PER (STATEMENT | SESSION | INSTANCE)`
#[derive(Debug, Drop, PartialEq, Eq)]
pub struct PolicyCondition {
    pub text: Text,
    pub evaluation: Evaluation,
}

/// `CREATE AUDIT POLICY name [PRIVILEGES privilege {, privilege}] [ACTIONS part {, part}]
/// [ROLES name {, name}] [WHEN ..]`, at least one of the first three.
#[derive(Debug, Drop, PartialEq, Eq)]
pub struct CreatePolicy {
    pub policy: Name,
    pub privileges: Option<List<Privilege>>,
    pub actions: Option<List<ActionPart>>,
    pub roles: Option<List<Name>>,
    pub condition: Option<PolicyCondition>,
}

/// `BY name {, name} | EXCEPT name {, name}`
#[derive(Debug, Drop, PartialEq, Eq)]
pub enum AuditedUsers {
    By(List<Name>),
    Except(List<Name>),
}

/// `WHENEVER [NOT] SUCCESSFUL`
#[derive(Clone, Copy, Debug, PartialEq, Eq)]
pub enum Whenever {
    Successful,
    NotSuccessful,
}

/// `AUDIT POLICY name [BY name {, name} | EXCEPT name {, name}] [WHENEVER [NOT] SUCCESSFUL]`
#[derive(Debug, Drop, PartialEq, Eq)]
pub struct Audit {
    pub policy: Name,
    pub users: Option<AuditedUsers>,
    pub whenever: Option<Whenever>,
}
