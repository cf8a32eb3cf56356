//! The names and the texts in statements on audit policies and in calls of packages.
ghost use Rattle.std.specs.Prelude.{IsUtf8, [], unwrap_or};
ghost use Rattle.std.specs.List.{AllByRecursion};
ghost use Rattle.au_base.specs.Naming.{IsName};
ghost use Rattle.au_admin.specs.Enabling.{users_of};
ghost use Rattle.au_admin.specs.Names.{IsConditionText, IsNamed, IsPartNamed, IsPlaceNamed, IsPolicyNamed};
ghost use Rattle.au_calls.specs.Written.{IsArgumentText, IsValueText};
ghost use Rattle.au_define.specs.Names.{IsTableNamed};

use au_base::{List, Name, TableReference, Text};
use sql_ast::{
    ActionPart, Argument, AuditedUsers, CreatePolicy, PolicyCondition, Statement, Value,
};

/// Each name in a statement on audit policies is one, and each text there or in a call is UTF-8: the
/// types of the statement have no other. It does nothing, and states it for its callers.
pub fn administration_is_named(statement: &Statement)
    ensures { IsNamed statement.now }
{
    match statement {
        Statement::CreatePolicy(create) => policy_is_named(create),
        Statement::DropPolicy { policy } => is_named(policy),
        Statement::Audit(audit) => {
            is_named(&audit.policy);
            users_are_named(&audit.users);
        }
        Statement::Noaudit { policy, users } => {
            is_named(policy);
            some_are_named(users);
        }
        Statement::Call(call) => arguments_are_texts(call.arguments.as_slice()),
        _ => {}
    }
}

fn policy_is_named(create: &CreatePolicy)
    ensures { IsPolicyNamed create.now }
{
    is_named(&create.policy);
    actions_are_named(&create.actions);
    some_are_named(&create.roles);
    condition_is_text(&create.condition);
}

fn actions_are_named(parts: &Option<List<ActionPart>>)
    ensures { AllByRecursion IsPartNamed (unwrap_or parts.now []) }
{
    if let Some(parts) = parts {
        parts_are_named(parts.as_slice());
    }
}

fn parts_are_named(parts: &[ActionPart])
    ensures { AllByRecursion IsPartNamed parts.now }
{
    for part in parts {
        place_is_named(&part.table);
    }
}

fn place_is_named(place: &Option<TableReference>)
    ensures { IsPlaceNamed place.now }
{
    if let Some(table) = place {
        table_is_named(table);
    }
}

fn table_is_named(table: &TableReference)
    ensures { IsTableNamed table.now }
{
    is_named(&table.name);
    if let Some(owner) = &table.owner {
        is_named(owner);
    }
}

fn users_are_named(users: &Option<AuditedUsers>)
    ensures { AllByRecursion IsName (users_of users.now) }
{
    match users {
        None => {}
        Some(AuditedUsers::By(users)) => are_named(users.as_slice()),
        Some(AuditedUsers::Except(users)) => are_named(users.as_slice()),
    }
}

fn some_are_named(names: &Option<List<Name>>)
    ensures { AllByRecursion IsName (unwrap_or names.now []) }
{
    if let Some(names) = names {
        are_named(names.as_slice());
    }
}

fn are_named(names: &[Name])
    ensures { AllByRecursion IsName names.now }
{
    for name in names {
        is_named(name);
    }
}

fn is_named(name: &Name)
    ensures { IsName name.now }
{
    let _ = name.as_bytes();
}

fn condition_is_text(condition: &Option<PolicyCondition>)
    ensures { IsConditionText condition.now }
{
    if let Some(condition) = condition {
        is_text(&condition.text);
    }
}

fn arguments_are_texts(arguments: &[Argument])
    ensures { AllByRecursion IsArgumentText arguments.now }
{
    for argument in arguments {
        value_is_text(&argument.value);
    }
}

fn value_is_text(value: &Value)
    ensures { IsValueText value.now }
{
    match value {
        Value::Literal(text) => is_text(text),
        Value::Number(_)
        | Value::Null
        | Value::True
        | Value::False
        | Value::Constant(_, _)
        | Value::Now
        | Value::Moment(_) => {}
    }
}

fn is_text(text: &Text)
    ensures { IsUtf8 text.now }
{
    let _ = text.as_bytes();
}
