//! Calls of the procedures of DBMS_FGA and DBMS_AUDIT_MGMT.
ghost use Rattle.std.specs.Prelude.{◌≡◌, true, List};
ghost use Rattle.sql_lex.specs.declared.token.Kind.{Kind};
ghost use Rattle.sql_ast.specs.declared.statement.Statement.{Statement as Tree};
ghost use Rattle.sql_parse.specs.Symbols.{kinds};
ghost use Rattle.sql_parse.specs.descent.Reading.{Gives};
ghost use Rattle.sql_parse.specs.CallStatements.{IsCallStatement};
ghost use Rattle.sql_parse.specs.Conditions.{opens_few};
ghost use Rattle.sql_parse.specs.Whole.{Finds};
ghost use Rattle.sql_parse_calls.specs.descent.ReadCalls as spec;

use crate::arguments::arguments;
use crate::procedures::{are_taken, procedure};
use au_base::Memory;
use sql_ast::{Call, Statement};
use sql_lex::{Mark, Token};
use sql_parse::Stop;
use sql_parse::cursor::{behind, expect_mark, expect_word, sees_word};
use sql_parse::endings::whole;
use std::alloc::Global;

/// The call that the tokens are, behind CALL or in a block, with `;` behind it or without. `None`
/// where they are none. Nothing is said of tokens that open over 100 parentheses at once.
pub fn call_statement(alloc: Global, tokens: &[Token]) -> Result<Option<Statement>, Memory>
    ensures { opens_few 0 (kinds tokens.now) ≡ true → Finds (IsCallStatement (kinds tokens.now)) result }
{
    whole(statement(alloc, tokens))
}

/// Tokens are one such statement at most.
pub fn one_call_statement()
    ensures { (ts : List Kind) (x y : Tree) → IsCallStatement ts x → IsCallStatement ts y → x ≡ y }
{}

#[tactic(auto, unfolding(crate::specs::descent::ReadCalls::call_statement))]
fn statement(alloc: Global, tokens: &[Token]) -> Result<(Statement, &[Token]), Stop>
    ensures { Gives (λ x. (x.0, kinds x.1.now)) result (spec.call_statement (kinds tokens.now)) }
{
    if sees_word(tokens, b"BEGIN") {
        return block(alloc, behind(tokens));
    }
    let rest = expect_word(tokens, b"CALL").ok_or(Stop::Unread)?;
    let (found, rest) = call(alloc, rest)?;
    Ok((Statement::Call(found), rest))
}

// A block whose BEGIN came before.
#[tactic(auto, unfolding(crate::specs::descent::ReadCalls::block))]
fn block(alloc: Global, tokens: &[Token]) -> Result<(Statement, &[Token]), Stop>
    ensures { Gives (λ x. (x.0, kinds x.1.now)) result (spec.block (kinds tokens.now)) }
{
    let (found, rest) = call(alloc, tokens)?;
    let rest = expect_mark(rest, Mark::Semicolon).ok_or(Stop::Unread)?;
    let rest = expect_word(rest, b"END").ok_or(Stop::Unread)?;
    Ok((Statement::Call(found), rest))
}

// `[SYS .] name . name ( argument {, argument} )`
#[tactic(auto, unfolding(crate::specs::descent::ReadCalls::call))]
fn call(alloc: Global, tokens: &[Token]) -> Result<(Call, &[Token]), Stop>
    ensures { Gives (λ x. (x.0, kinds x.1.now)) result (spec.call (kinds tokens.now)) }
{
    let (procedure, rest) = procedure(tokens).ok_or(Stop::Unread)?;
    let rest = expect_mark(rest, Mark::OpenParenthesis).ok_or(Stop::Unread)?;
    let (arguments, rest) = arguments(alloc, rest)?;
    let rest = expect_mark(rest, Mark::CloseParenthesis).ok_or(Stop::Unread)?;
    if !are_taken(procedure, arguments.as_slice()) {
        return Err(Stop::Unread);
    }
    let found = Call {
        procedure,
        arguments,
    };
    Ok((found, rest))
}
