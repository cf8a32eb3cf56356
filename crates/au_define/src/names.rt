//! The names in statements.
ghost use Rattle.std.specs.List.{AllByRecursion};
ghost use Rattle.au_base.specs.Naming.{IsName};
ghost use Rattle.au_define.specs.Names.{IsElementNamed, IsGrantNamed, IsNamed, IsRightNamed, IsTableNamed};

use au_base::{GrantStatement, Name, Right, TableReference};
use sql_ast::{Element, Statement};

/// Each name in a statement on tables, users, roles or grants is one: the types of the statement have
/// no other. It does nothing, and states it for its callers.
pub fn names_are_names(statement: &Statement)
    ensures { IsNamed statement.now }
{
    match statement {
        Statement::CreateTable(create) => {
            table_is_named(&create.table);
            elements_are_named(create.elements.as_slice());
        }
        Statement::DropTable { table } => table_is_named(table),
        Statement::CreateUser { user, .. }
        | Statement::AlterUser { user, .. }
        | Statement::DropUser { user } => is_named(user),
        Statement::CreateRole { role } | Statement::DropRole { role } => is_named(role),
        Statement::Grant(grant) => grant_is_named(grant),
        _ => {}
    }
}

fn table_is_named(table: &TableReference)
    ensures { IsTableNamed table.now }
{
    is_named(&table.name);
    if let Some(owner) = &table.owner {
        is_named(owner);
    }
}

fn elements_are_named(elements: &[Element])
    ensures { AllByRecursion IsElementNamed elements.now }
{
    for element in elements {
        element_is_named(element);
    }
}

fn element_is_named(element: &Element)
    ensures { IsElementNamed element.now }
{
    match element {
        Element::Column { column, .. } => is_named(&column.name),
        Element::PrimaryKey(_) => {}
    }
}

fn grant_is_named(grant: &GrantStatement)
    ensures { IsGrantNamed grant.now }
{
    match grant {
        GrantStatement::Grant {
            rights,
            grantees,
            ..
        }
        | GrantStatement::Revoke { rights, grantees } => {
            rights_are_named(rights.as_slice());
            are_named(grantees.as_slice());
        }
        GrantStatement::GrantObject {
            table,
            grantees,
            ..
        }
        | GrantStatement::RevokeObject {
            table,
            grantees,
            ..
        } => {
            table_is_named(table);
            are_named(grantees.as_slice());
        }
    }
}

fn rights_are_named(rights: &[Right])
    ensures { AllByRecursion IsRightNamed rights.now }
{
    for right in rights {
        right_is_named(right);
    }
}

fn right_is_named(right: &Right)
    ensures { IsRightNamed right.now }
{
    match right {
        Right::Role(role) => is_named(role),
        Right::Privilege(_) => {}
    }
}

fn are_named(names: &[Name])
    ensures { AllByRecursion IsName names.now }
{
    for name in names {
        is_named(name);
    }
}

fn is_named(name: &Name)
    ensures { IsName name.now }
{
    let _ = name.as_bytes();
}
