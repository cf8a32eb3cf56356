//! Audit policies (Database Security Guide, "Auditing Activities with Unified Audit Policies").
ghost use Rattle.std.specs.Prelude.{◌≡◌};
ghost use Rattle.au_entries.specs.Enabling.{is_on};

use au_base::{Action, List, Name, Privilege, TableName, Text};
use sql_ast::Expr;
use std::alloc::AllocError;

/// A condition, as it is written and as it was read.
#[derive(Debug, Drop, PartialEq, Eq)]
pub struct Condition {
    pub text: Text,
    pub tree: Expr,
}

/// How often a policy's condition is evaluated.
#[derive(Clone, Copy, Debug, PartialEq, Eq)]
pub enum Evaluate {
    /// At each statement.
    Statement,
    /// Once a session.
    Session,
    /// Once in the life of the instance.
    Instance,
}

/// What an audit policy is for: a statement that meets one of its parts.
#[derive(Debug, Drop, PartialEq, Eq)]
pub struct AuditPolicy {
    pub name: Name,
    /// System privileges, in the order of their numbers.
    pub privileges: List<Privilege>,
    /// Actions, each on one table where one is named.
    pub actions: List<(Action, Option<TableName>)>,
    pub roles: List<Name>,
    pub when: Option<(Evaluate, Condition)>,
}

/// Which outcomes of a statement are audited.
#[derive(Clone, Copy, Debug, PartialEq, Eq)]
pub struct Outcomes {
    /// A statement that was done.
    pub success: bool,
    /// A statement that was refused.
    pub failure: bool,
}

/// For whom a policy is enabled (SQL Language Reference, "AUDIT (Unified Auditing)").
#[derive(Debug, Drop, PartialEq, Eq)]
pub enum Enabled {
    /// For nobody.
    Off,
    /// For these users, each at outcomes of its own.
    By(List<(Name, Outcomes)>),
    /// For all users but these, at these outcomes.
    Except(List<Name>, Outcomes),
}

impl Enabled {
    /// Whether it is for somebody: one for listed users isn't where none is listed.
    pub fn is_on(&self) -> bool
        ensures { result ≡ is_on self.now }
    {
        match self {
            Enabled::Off => false,
            Enabled::By(users) => !users.is_empty(),
            Enabled::Except(_, _) => true,
        }
    }
}

impl Clone for Enabled {
    ghost is_clone = { λ enabled copy. copy ≡ enabled };

    fn clone(&self) -> Result<Self, AllocError> {
        match self {
            Enabled::Off => Ok(Enabled::Off),
            Enabled::By(users) => Ok(Enabled::By(users.clone()?)),
            Enabled::Except(users, outcomes) => Ok(Enabled::Except(users.clone()?, *outcomes)),
        }
    }
}
