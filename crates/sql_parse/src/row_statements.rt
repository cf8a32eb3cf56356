//! Statements that read and change rows.
ghost use Rattle.std.specs.Prelude.{◌≡◌, true, List};
ghost use Rattle.sql_lex.specs.declared.token.Kind.{Kind as TokenKind};
ghost use Rattle.sql_ast.specs.declared.statement.Statement.{Statement as Tree};
ghost use Rattle.sql_parse.specs.Symbols.{kinds};
ghost use Rattle.sql_parse.specs.descent.Reading.{Gives, inside};
ghost use Rattle.sql_parse.specs.descent.ReadStatements as spec;
ghost use Rattle.sql_parse.specs.RowStatements.{IsRowStatement};
ghost use Rattle.sql_parse.specs.Conditions.{opens_few};
ghost use Rattle.sql_parse.specs.Whole.{Finds};

use crate::changes::{delete, insert, update};
use crate::conditions::{LIMIT, opens_few};
use crate::cursor::{behind, past_word, sees_word};
use crate::endings::whole;
use crate::queries::{count, counts, select};
use crate::stop::Stop;
use au_base::Memory;
use sql_ast::Statement;
use sql_lex::Token;
use std::alloc::Global;

/// The SELECT, INSERT, UPDATE, DELETE, COMMIT or ROLLBACK that the tokens are, with `;` behind it
/// or without, in which no more than 100 parentheses are open at once. `None` where they are none.
pub fn row_statement(alloc: Global, tokens: &[Token]) -> Result<Option<Statement>, Memory>
    ensures { Finds (IsRowStatement (kinds tokens.now)) result }
{
    if !opens_few(tokens) {
        return Ok(None);
    }
    shallow_row_statement(alloc, tokens)
}

/// The same of tokens whose parentheses were counted. Nothing is said of tokens that open over 100
/// parentheses at once.
pub fn shallow_row_statement(alloc: Global, tokens: &[Token]) -> Result<Option<Statement>, Memory>
    ensures { opens_few 0 (kinds tokens.now) ≡ true → Finds (IsRowStatement (kinds tokens.now)) result }
{
    whole(statement(alloc, LIMIT, tokens))
}

/// Tokens are one row statement at most.
pub fn one_row_statement()
    ensures { (ts : List TokenKind) (x y : Tree) → IsRowStatement ts x → IsRowStatement ts y → x ≡ y }
{}

#[tactic(auto, unfolding(crate::specs::descent::ReadStatements::row_statement))]
fn statement(alloc: Global, depth: u32, tokens: &[Token]) -> Result<(Statement, &[Token]), Stop>
    ensures { Gives (λ x. (x.0, kinds x.1.now)) result (spec.row_statement (inside depth) (kinds tokens.now)) }
{
    let rest = behind(tokens);
    if sees_word(tokens, b"SELECT") {
        query(alloc, depth, rest)
    } else if sees_word(tokens, b"COMMIT") {
        Ok((Statement::Commit, past_word(rest, b"WORK")))
    } else if sees_word(tokens, b"ROLLBACK") {
        Ok((Statement::Rollback, past_word(rest, b"WORK")))
    } else {
        change(alloc, depth, tokens)
    }
}

fn change(alloc: Global, depth: u32, tokens: &[Token]) -> Result<(Statement, &[Token]), Stop>
    ensures { Gives (λ x. (x.0, kinds x.1.now)) result (spec.change (inside depth) (kinds tokens.now)) }
{
    let rest = behind(tokens);
    if sees_word(tokens, b"INSERT") {
        let (found, rest) = insert(alloc, depth, rest)?;
        Ok((Statement::Insert(found), rest))
    } else if sees_word(tokens, b"UPDATE") {
        let (found, rest) = update(alloc, depth, rest)?;
        Ok((Statement::Update(found), rest))
    } else if sees_word(tokens, b"DELETE") {
        let (found, rest) = delete(alloc, depth, rest)?;
        Ok((Statement::Delete(found), rest))
    } else {
        Err(Stop::Unread)
    }
}

// A query whose SELECT came before.
#[tactic(auto, unfolding(crate::specs::descent::ReadStatements::query))]
fn query(alloc: Global, depth: u32, tokens: &[Token]) -> Result<(Statement, &[Token]), Stop>
    ensures { Gives (λ x. (x.0, kinds x.1.now)) result (spec.query (inside depth) (kinds tokens.now)) }
{
    if counts(tokens) {
        let (found, rest) = count(alloc, depth, behind(behind(tokens)))?;
        Ok((Statement::Count(found), rest))
    } else {
        let (found, rest) = select(alloc, depth, tokens)?;
        Ok((Statement::Select(found), rest))
    }
}
