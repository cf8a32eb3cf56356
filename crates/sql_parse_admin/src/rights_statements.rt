//! Statements about users, roles and rights that set no password.
ghost use Rattle.std.specs.Prelude.{◌≡◌, List, true};
ghost use Rattle.sql_lex.specs.declared.token.Kind.{Kind};
ghost use Rattle.sql_ast.specs.declared.statement.Statement.{Statement as Tree};
ghost use Rattle.sql_parse.specs.Conditions.{opens_few};
ghost use Rattle.sql_parse.specs.Symbols.{kinds};
ghost use Rattle.sql_parse.specs.Whole.{Finds};
ghost use Rattle.sql_parse.specs.descent.Reading.{Gives};
ghost use Rattle.sql_parse_admin.specs.descent.ReadStatements as spec;
ghost use Rattle.sql_parse.specs.RightsStatements.{IsRightsStatement};

use crate::grants::{grant, revoke};
use au_base::Memory;
use sql_ast::Statement;
use sql_lex::Token;
use sql_parse::Stop;
use sql_parse::cursor::{behind, expect_word, sees_word};
use sql_parse::endings::whole;
use sql_parse::names::name;
use sql_parse::tables::table;
use std::alloc::Global;

/// The GRANT, REVOKE, DROP TABLE, DROP USER, CREATE ROLE or DROP ROLE that the tokens are, with `;`
/// behind it or without. `None` where they are none. Nothing is said of tokens that open over 100
/// parentheses at once.
pub fn rights_statement(alloc: Global, tokens: &[Token]) -> Result<Option<Statement>, Memory>
    ensures { opens_few 0 (kinds tokens.now) ≡ true → Finds (IsRightsStatement (kinds tokens.now)) result }
{
    whole(statement(alloc, tokens))
}

/// Tokens are one such statement at most.
pub fn one_rights_statement()
    ensures { (ts : List Kind) (x y : Tree) → IsRightsStatement ts x → IsRightsStatement ts y → x ≡ y }
{}

#[tactic(auto, unfolding(crate::specs::descent::ReadStatements::rights_statement))]
fn statement(alloc: Global, tokens: &[Token]) -> Result<(Statement, &[Token]), Stop>
    ensures { Gives (λ x. (x.0, kinds x.1.now)) result (spec.rights_statement (kinds tokens.now)) }
{
    let rest = behind(tokens);
    if sees_word(tokens, b"GRANT") {
        let (found, rest) = grant(alloc, rest)?;
        Ok((Statement::Grant(found), rest))
    } else if sees_word(tokens, b"REVOKE") {
        let (found, rest) = revoke(alloc, rest)?;
        Ok((Statement::Grant(found), rest))
    } else if sees_word(tokens, b"DROP") {
        drop(alloc, rest)
    } else if sees_word(tokens, b"CREATE") {
        let rest = expect_word(rest, b"ROLE").ok_or(Stop::Unread)?;
        let (role, rest) = name(alloc, rest)?;
        Ok((Statement::CreateRole { role }, rest))
    } else {
        Err(Stop::Unread)
    }
}

// A DROP whose first word came before.
#[tactic(auto, unfolding(crate::specs::descent::ReadStatements::drop))]
fn drop(alloc: Global, tokens: &[Token]) -> Result<(Statement, &[Token]), Stop>
    ensures { Gives (λ x. (x.0, kinds x.1.now)) result (spec.drop (kinds tokens.now)) }
{
    let rest = behind(tokens);
    if sees_word(tokens, b"TABLE") {
        let (table, rest) = table(alloc, rest)?;
        Ok((Statement::DropTable { table }, rest))
    } else if sees_word(tokens, b"USER") {
        let (user, rest) = name(alloc, rest)?;
        Ok((Statement::DropUser { user }, rest))
    } else if sees_word(tokens, b"ROLE") {
        let (role, rest) = name(alloc, rest)?;
        Ok((Statement::DropRole { role }, rest))
    } else {
        Err(Stop::Unread)
    }
}
