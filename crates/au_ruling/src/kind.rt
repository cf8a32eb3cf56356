//! Kinds of statements.
ghost use Rattle.std.specs.Prelude.{◌≡◌};
ghost use Rattle.au_ruling.specs.Kinds.{commits, is_on_rows, kind_of};

use sql_ast::Statement;

/// By what a statement is decided.
#[derive(Clone, Copy, Debug, PartialEq, Eq)]
pub enum StatementKind {
    /// SELECT, INSERT, UPDATE and DELETE.
    OnRows,
    Commit,
    Rollback,
    /// On tables, users, roles and grants.
    Definition,
    /// On audit policies; and calls of packages.
    Administration,
}

/// By what the statement is decided.
pub fn kind_of(statement: &Statement) -> StatementKind
    ensures { result ≡ kind_of statement.now }
{
    match statement {
        Statement::Select(_)
        | Statement::Count(_)
        | Statement::Insert(_)
        | Statement::Update(_)
        | Statement::Delete(_) => StatementKind::OnRows,
        Statement::Commit => StatementKind::Commit,
        Statement::Rollback => StatementKind::Rollback,
        Statement::CreateTable(_)
        | Statement::DropTable { .. }
        | Statement::CreateUser { .. }
        | Statement::AlterUser { .. }
        | Statement::DropUser { .. }
        | Statement::CreateRole { .. }
        | Statement::DropRole { .. }
        | Statement::Grant(_) => StatementKind::Definition,
        Statement::CreatePolicy(_)
        | Statement::DropPolicy { .. }
        | Statement::Audit(_)
        | Statement::Noaudit { .. }
        | Statement::Call(_) => StatementKind::Administration,
    }
}

/// Whether the statement is on rows: SELECT, INSERT, UPDATE or DELETE.
pub fn is_on_rows(statement: &Statement) -> bool
    ensures { result ≡ is_on_rows statement.now }
{
    match kind_of(statement) {
        StatementKind::OnRows => true,
        StatementKind::Commit
        | StatementKind::Rollback
        | StatementKind::Definition
        | StatementKind::Administration => false,
    }
}

/// Whether the statement commits its session's transaction before all else: COMMIT does, and so does
/// each statement that is neither on rows nor ROLLBACK.
pub fn commits(statement: &Statement) -> bool
    ensures { result ≡ commits statement.now }
{
    match kind_of(statement) {
        StatementKind::OnRows | StatementKind::Rollback => false,
        StatementKind::Commit | StatementKind::Definition | StatementKind::Administration => true,
    }
}
