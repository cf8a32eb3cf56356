//! Laws of the texts of statements.
ghost use Rattle.std.specs.Prelude.{ℕ, IsUtf8, List};
ghost use Rattle.au_audit.specs.Statements.{IsPlaced};
ghost use Rattle.sql_ast.specs.declared.statement.Statement.{Statement};
ghost use Rattle.sql_parse.specs.Statements.{Reads};

use sql_parse_admin::passwords_are_placed;

/// The password that a text's statement sets stands in the text, so that the statement can be
/// recorded. It does nothing, and states the law for its callers.
pub fn statements_stand_in_their_texts()
    ensures { (text : List ℕ) (statement : Statement) → IsUtf8 text → Reads text statement → IsPlaced text statement }
{
    passwords_are_placed();
}
