//! What is so of each statement that is read.
ghost use Rattle.std.specs.Prelude.{List, ℕ};
ghost use Rattle.std.specs.List.{AllByRecursion};
ghost use Rattle.au_audit.specs.Statements.{from_tables, grant_tables, written_tables};
ghost use Rattle.au_base.specs.Naming.{IsName};
ghost use Rattle.au_define.specs.Names.{IsTableNamed};
ghost use Rattle.au_ruling.specs.Sound.{IsFew, IsSoundStatement};
ghost use Rattle.sql_ast.specs.declared.statement.Statement.{Statement as AnyStatement};
ghost use Rattle.sql_parse.specs.Statements.{Reads};

use au_admin::{administration_is_named, read_statements_are_short, read_statements_are_timely};
use au_base::{GrantStatement, Name, TableReference};
use au_define::{names_are_names, read_statements_are_well_formed};
use au_literals::literals_are_sound;
use sql_ast::{FromClause, Join, Statement};
use sql_lex::one_way;

/// A statement that some text is read as is sound: its names are names, as the types of the program
/// have it, and the rest is so by the grammar. It does nothing, and states it for its callers.
pub fn statements_are_sound(statement: &Statement)
    ensures { (text : List ℕ) → Reads text statement.now → IsSoundStatement statement.now }
{
    names_are_names(statement);
    administration_is_named(statement);
    tables_are_named(statement);
    read_statements_are_well_formed();
    read_statements_are_timely();
    read_statements_are_short();
    read_statements_are_few();
    literals_are_sound();
}

// GRANT and REVOKE that a text is read as name few rights and few grantees.
fn read_statements_are_few()
    ensures { (text : List ℕ) (statement : AnyStatement) → Reads text statement → IsFew statement }
{
    one_way();
}

fn tables_are_named(statement: &Statement)
    ensures { AllByRecursion IsTableNamed (written_tables statement.now) }
{
    match statement {
        Statement::Select(select) => from_is_named(&select.from),
        Statement::Count(count) => table_is_named(&count.table.table),
        Statement::Insert(insert) => table_is_named(&insert.table),
        Statement::Update(update) => table_is_named(&update.table),
        Statement::Delete(delete) => table_is_named(&delete.table),
        Statement::CreateTable(create) => table_is_named(&create.table),
        Statement::DropTable { table } => table_is_named(table),
        Statement::Grant(grant) => grant_is_named(grant),
        _ => {}
    }
}

fn from_is_named(from: &FromClause)
    ensures { AllByRecursion IsTableNamed (from_tables from.now) }
{
    table_is_named(&from.first.table);
    joins_are_named(from.joins.as_slice());
}

fn joins_are_named(joins: &[Join])
    ensures { AllByRecursion (λ join. IsTableNamed join.table.table) joins.now }
{
    for join in joins {
        table_is_named(&join.table.table);
    }
}

fn grant_is_named(grant: &GrantStatement)
    ensures { AllByRecursion IsTableNamed (grant_tables grant.now) }
{
    match grant {
        GrantStatement::Grant { .. } | GrantStatement::Revoke { .. } => {}
        GrantStatement::GrantObject { table, .. } | GrantStatement::RevokeObject { table, .. } => {
            table_is_named(table);
        }
    }
}

fn table_is_named(table: &TableReference)
    ensures { IsTableNamed table.now }
{
    is_named(&table.name);
    if let Some(owner) = &table.owner {
        is_named(owner);
    }
}

fn is_named(name: &Name)
    ensures { IsName name.now }
{
    let _ = name.as_bytes();
}
