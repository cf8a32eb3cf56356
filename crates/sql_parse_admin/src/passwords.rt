//! Where passwords stand.
ghost use Rattle.std.specs.Prelude.{List, ℕ, IsUtf8};
ghost use Rattle.sql_ast.specs.declared.statement.Statement.{Statement};
ghost use Rattle.sql_parse.specs.Statements.{Reads};
ghost use Rattle.sql_parse_admin.specs.Passwords.{IsPlaced};

/// The password that a text's statement sets stands in the text at its places, as one token: a word,
/// or a name between two `"`. It does nothing, and states the law for its callers.
pub fn passwords_are_placed()
    ensures { (text : List ℕ) (statement : Statement) → IsUtf8 text → Reads text statement → IsPlaced text statement }
{}
