//! The law of literals. It does nothing, and states it for its callers.
ghost use Rattle.std.specs.Prelude.{List, ℕ};
ghost use Rattle.au_literals.specs.Literals.{AreLiteralsSound};
ghost use Rattle.sql_ast.specs.declared.statement.Statement.{Statement};
ghost use Rattle.sql_parse.specs.Statements.{Reads};

/// The values of each statement that a text is read as have sound literals: its numbers have at most
/// 18 digits, its moments aren't over the last one, and a value that is a text alone is UTF-8.
pub fn literals_are_sound()
    ensures { (text : List ℕ) (statement : Statement) → Reads text statement → AreLiteralsSound statement }
{}
