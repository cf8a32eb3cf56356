//! Laws of what became of conditions.
ghost use Rattle.std.specs.Prelude.{◌≡◌, ◌<◌, ◌^◌, List, Option, Some, ℕ};
ghost use Rattle.au_admin.specs.Going.{IsReadIn};
ghost use Rattle.au_base.specs.declared.code.Code.{Code};
ghost use Rattle.au_base.specs.declared.table.ColumnKind.{ColumnKind};
ghost use Rattle.au_calls.specs.Reading.{wrong_code};
ghost use Rattle.au_condition.specs.Reading.{condition_read};
ghost use Rattle.au_entries.specs.declared.kept.Kept.{Kept};
ghost use Rattle.au_entries.specs.declared.table.Table.{Table};
ghost use Rattle.au_entries.specs.Lawful.{IsLawful};
ghost use Rattle.au_expr.specs.Names.{name_code};
ghost use Rattle.au_expr.specs.Resolving.{condition_code, value_code};
ghost use Rattle.au_expr.specs.Rows.{Range};
ghost use Rattle.au_replay.specs.Reading.{conditions};
ghost use Rattle.sql_ast.specs.declared.expression.Expr.{Expr};
ghost use Rattle.sql_ast.specs.declared.statement.Statement.{Statement};

/// A condition that isn't refused can be read, and is a truth over its table, or over none, where
/// what is kept is lawful; and the code of one that is refused fits a record. It does nothing, and
/// states the laws for its callers.
pub fn conditions_are_read()
    ensures reads { (kept : Kept) (user : List ℕ) (statement : Statement) → IsLawful conditions kept
        → IsReadIn conditions kept user statement (condition_read kept.tables user statement) }
    ensures told { (tables : List Table) (user : List ℕ) (statement : Statement) → (wrong_code (condition_read tables user statement)).0 < 2 ^ 32 }
{}

/// The codes by which the names of an expression, a condition and a value are refused fit a record.
/// It does nothing, and states the law for its callers.
pub fn expression_codes_fit()
    ensures names { (ranges : List Range) (x : Expr) (code : Code) → name_code ranges x ≡ Some code → code.0 < 2 ^ 32 }
    ensures conditions { (ranges : List Range) (x : Expr) (code : Code) → condition_code ranges x ≡ Some code → code.0 < 2 ^ 32 }
    ensures values { (wanted : Option ColumnKind) (ranges : List Range) (x : Expr) (code : Code) → value_code wanted ranges x ≡ Some code → code.0 < 2 ^ 32 }
{}
