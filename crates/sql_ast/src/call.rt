//! Calls of packages (PL/SQL Packages and Types Reference, "DBMS_FGA" and "DBMS_AUDIT_MGMT").
ghost use Rattle.std.specs.Prelude.{◌≡◌};
ghost use Rattle.sql_ast.specs.Procedures.{needed_by, optional_of, package_of, parameter_name, procedure_name};

use au_base::{List, Name, Text};

/// A procedure of DBMS_FGA or DBMS_AUDIT_MGMT.
#[derive(Clone, Copy, Debug, PartialEq, Eq)]
pub enum Procedure {
    /// DBMS_FGA.ADD_POLICY
    AddPolicy,
    /// DBMS_FGA.DROP_POLICY
    DropPolicy,
    /// DBMS_FGA.ENABLE_POLICY
    EnablePolicy,
    /// DBMS_FGA.DISABLE_POLICY
    DisablePolicy,
    /// DBMS_AUDIT_MGMT.SET_LAST_ARCHIVE_TIMESTAMP
    SetLastArchiveTimestamp,
    /// DBMS_AUDIT_MGMT.CLEAR_LAST_ARCHIVE_TIMESTAMP
    ClearLastArchiveTimestamp,
    /// DBMS_AUDIT_MGMT.CLEAN_AUDIT_TRAIL
    CleanAuditTrail,
}

impl Procedure {
    /// All procedures.
    pub const EACH: [Procedure; 7] = [
        Procedure::AddPolicy,
        Procedure::DropPolicy,
        Procedure::EnablePolicy,
        Procedure::DisablePolicy,
        Procedure::SetLastArchiveTimestamp,
        Procedure::ClearLastArchiveTimestamp,
        Procedure::CleanAuditTrail,
    ];

    /// Its package's name, in upper case.
    pub fn package(self) -> &'static str
        ensures { result.now ≡ package_of self }
    {
        match self {
            Procedure::AddPolicy
            | Procedure::DropPolicy
            | Procedure::EnablePolicy
            | Procedure::DisablePolicy => "DBMS_FGA",
            Procedure::SetLastArchiveTimestamp
            | Procedure::ClearLastArchiveTimestamp
            | Procedure::CleanAuditTrail => "DBMS_AUDIT_MGMT",
        }
    }

    /// Its name in its package, in upper case.
    pub fn name(self) -> &'static str
        ensures { result.now ≡ procedure_name self }
    {
        match self {
            Procedure::AddPolicy => "ADD_POLICY",
            Procedure::DropPolicy => "DROP_POLICY",
            Procedure::EnablePolicy => "ENABLE_POLICY",
            Procedure::DisablePolicy => "DISABLE_POLICY",
            Procedure::SetLastArchiveTimestamp => "SET_LAST_ARCHIVE_TIMESTAMP",
            Procedure::ClearLastArchiveTimestamp => "CLEAR_LAST_ARCHIVE_TIMESTAMP",
            Procedure::CleanAuditTrail => "CLEAN_AUDIT_TRAIL",
        }
    }

    /// The parameters that have no default, and must be given.
    pub fn needed(self) -> &'static [Parameter]
        ensures { result.now ≡ needed_by self }
    {
        match self {
            Procedure::AddPolicy
            | Procedure::DropPolicy
            | Procedure::EnablePolicy
            | Procedure::DisablePolicy => &[Parameter::ObjectName, Parameter::PolicyName],
            Procedure::SetLastArchiveTimestamp => {
                &[Parameter::AuditTrailType, Parameter::LastArchiveTime]
            }
            Procedure::ClearLastArchiveTimestamp | Procedure::CleanAuditTrail => {
                &[Parameter::AuditTrailType]
            }
        }
    }

    /// The parameters that have a default, and may be given.
    pub fn optional(self) -> &'static [Parameter]
        ensures { result.now ≡ optional_of self }
    {
        match self {
            Procedure::AddPolicy => &[
                Parameter::ObjectSchema,
                Parameter::AuditCondition,
                Parameter::AuditColumn,
                Parameter::HandlerSchema,
                Parameter::HandlerModule,
                Parameter::Enable,
                Parameter::StatementTypes,
                Parameter::AuditColumnOpts,
            ],
            Procedure::DropPolicy | Procedure::DisablePolicy => &[Parameter::ObjectSchema],
            Procedure::EnablePolicy => &[Parameter::ObjectSchema, Parameter::Enable],
            Procedure::SetLastArchiveTimestamp | Procedure::ClearLastArchiveTimestamp => &[],
            Procedure::CleanAuditTrail => &[Parameter::UseLastArchTimestamp],
        }
    }
}

/// A parameter of a procedure, named as it is in upper case.
#[derive(Clone, Copy, Debug, PartialEq, Eq)]
pub enum Parameter {
    ObjectSchema,
    ObjectName,
    PolicyName,
    AuditCondition,
    AuditColumn,
    HandlerSchema,
    HandlerModule,
    Enable,
    StatementTypes,
    AuditColumnOpts,
    AuditTrailType,
    LastArchiveTime,
    UseLastArchTimestamp,
}

impl Parameter {
    /// All parameters.
    pub const EACH: [Parameter; 13] = [
        Parameter::ObjectSchema,
        Parameter::ObjectName,
        Parameter::PolicyName,
        Parameter::AuditCondition,
        Parameter::AuditColumn,
        Parameter::HandlerSchema,
        Parameter::HandlerModule,
        Parameter::Enable,
        Parameter::StatementTypes,
        Parameter::AuditColumnOpts,
        Parameter::AuditTrailType,
        Parameter::LastArchiveTime,
        Parameter::UseLastArchTimestamp,
    ];

    /// Its name, in upper case.
    pub fn name(self) -> &'static str
        ensures { result.now ≡ parameter_name self }
    {
        match self {
            Parameter::ObjectSchema => "OBJECT_SCHEMA",
            Parameter::ObjectName => "OBJECT_NAME",
            Parameter::PolicyName => "POLICY_NAME",
            Parameter::AuditCondition => "AUDIT_CONDITION",
            Parameter::AuditColumn => "AUDIT_COLUMN",
            Parameter::HandlerSchema => "HANDLER_SCHEMA",
            Parameter::HandlerModule => "HANDLER_MODULE",
            Parameter::Enable => "ENABLE",
            Parameter::StatementTypes => "STATEMENT_TYPES",
            Parameter::AuditColumnOpts => "AUDIT_COLUMN_OPTS",
            Parameter::AuditTrailType => "AUDIT_TRAIL_TYPE",
            Parameter::LastArchiveTime => "LAST_ARCHIVE_TIME",
            Parameter::UseLastArchTimestamp => "USE_LAST_ARCH_TIMESTAMP",
        }
    }
}

/// What a parameter is given.
#[derive(Debug, Drop, PartialEq, Eq)]
pub enum Value {
    /// The text literal; `''` is NULL.
    Literal(Text),
    Number(i64),
    Null,
    True,
    False,
    /// A package's constant, known or not: `name . name`.
    Constant(Name, Name),
    /// SYSTIMESTAMP.
    Now,
    /// A TIMESTAMP literal, in microseconds since 1970-01-01 00:00:00 UTC.
    Moment(u64),
}

/// `name => value`
#[derive(Debug, Drop, PartialEq, Eq)]
pub struct Argument {
    pub parameter: Parameter,
    pub value: Value,
}

/// `BEGIN call ; END | CALL call`, where a call is `[SYS .] name . name ( argument {, argument} )`.
/// Each parameter is given at most once, in the written order.
#[derive(Debug, Drop, PartialEq, Eq)]
pub struct Call {
    pub procedure: Procedure,
    pub arguments: List<Argument>,
}
