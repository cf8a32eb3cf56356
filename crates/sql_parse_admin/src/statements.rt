//! The statement that a text is.
ghost use Rattle.std.specs.Prelude.{◌≡◌, true, List, ℕ, IfOk, MatchResult};
ghost use Rattle.au_base.specs.declared.code.Code.{Code as AnyCode};
ghost use Rattle.sql_ast.specs.declared.statement.Statement.{Statement as Tree};
ghost use Rattle.sql_lex.specs.declared.token.Token.{Token as Lexeme};
ghost use Rattle.sql_parse.specs.Conditions.{opens_few};
ghost use Rattle.sql_parse.specs.Symbols.{kinds};
ghost use Rattle.sql_parse.specs.Whole.{Finds};
ghost use Rattle.sql_parse.specs.Statements.{IsStatement, IsUnread, Reads};
ghost use Rattle.sql_parse_admin.specs.descent.Families.{IsOf, altered, created, family_of};
ghost use Rattle.sql_parse_admin.specs.descent.Unread.{HasCode};

use crate::audits::{audit_statement, one_audit_statement};
use crate::policies::{one_policy_statement, policy_statement};
use crate::rights_statements::{one_rights_statement, rights_statement};
use crate::table_definitions::{one_table_statement, table_statement};
use crate::users::{one_user_statement, user_statement};
use au_base::limits::STATEMENT_BYTES;
use au_base::{Code, Memory};
use sql_ast::Statement;
use sql_lex::{Token, one_way, tokens};
use sql_parse::cursor::{behind, sees_word};
use sql_parse::{one_row_statement, opens_few, shallow_row_statement};
use sql_parse_calls::{call_statement, one_call_statement};
use std::alloc::Global;

/// What the first two words tell of a statement.
#[derive(Clone, Copy)]
enum Family {
    Rows,
    Table,
    User,
    Rights,
    Policy,
    Audit,
    Call,
}

/// The one statement that a text is, with `;` behind it or without. Or the code of a text that is
/// none: 99007 where it has over 32,767 bytes, 900 where it isn't cut into tokens, 99006 where it
/// opens more than 100 parentheses at once, and 900 where its tokens are no statement.
pub fn read(alloc: Global, text: &[u8]) -> Result<Result<Statement, Code>, Memory>
    ensures { IfOk result (λ found. MatchResult found (Reads text.now) (IsUnread text.now)) }
{
    if text.len() > STATEMENT_BYTES {
        return Ok(Err(Code::STATEMENT_TOO_LONG));
    }
    one_way();
    match tokens(alloc, text)? {
        Err(_) => Ok(Err(Code::NOT_READ)),
        Ok(tokens) => statement_or_code(alloc, text, &tokens),
    }
}

/// A text is one statement at most, and has one code where it is none.
pub fn one_reading()
    ensures statement { (text : List ℕ) (x y : Tree) → Reads text x → Reads text y → x ≡ y }
    ensures code { (text : List ℕ) (a b : AnyCode) → IsUnread text a → IsUnread text b → a ≡ b }
    ensures apart { (text : List ℕ) (x : Tree) (code : AnyCode) → Reads text x → ¬ IsUnread text code }
{
    one_way();
    one_statement();
}

// The tokens of a text are one statement at most.
fn one_statement()
    ensures { (text : List ℕ) (ts : List Lexeme) (x y : Tree) → IsStatement text ts x → IsStatement text ts y → x ≡ y }
{
    one_row_statement();
    one_table_statement();
    one_user_statement();
    one_rights_statement();
    one_policy_statement();
    one_audit_statement();
    one_call_statement();
}

fn statement_or_code(
    alloc: Global,
    text: &[u8],
    tokens: &[Token],
) -> Result<Result<Statement, Code>, Memory>
    ensures { IfOk result (λ found. MatchResult found (IsStatement text.now tokens.now) (HasCode text.now tokens.now)) }
{
    if !opens_few(tokens) {
        return Ok(Err(Code::TOO_DEEP));
    }
    match statement(alloc, text, tokens)? {
        Some(found) => Ok(Ok(found)),
        None => Ok(Err(Code::NOT_READ)),
    }
}

fn statement(alloc: Global, text: &[u8], tokens: &[Token]) -> Result<Option<Statement>, Memory>
    ensures { opens_few 0 (kinds tokens.now) ≡ true → Finds (IsStatement text.now tokens.now) result }
{
    statement_of(alloc, family_of(tokens), text, tokens)
}

fn statement_of(
    alloc: Global,
    family: Family,
    text: &[u8],
    tokens: &[Token],
) -> Result<Option<Statement>, Memory>
    ensures { opens_few 0 (kinds tokens.now) ≡ true → Finds (IsOf family text.now tokens.now) result }
{
    match family {
        Family::Rows => shallow_row_statement(alloc, tokens),
        Family::Table => table_statement(alloc, tokens),
        Family::User => user_statement(alloc, text, tokens),
        Family::Rights => rights_statement(alloc, tokens),
        Family::Policy => policy_statement(alloc, tokens),
        Family::Audit => audit_statement(alloc, tokens),
        Family::Call => call_statement(alloc, tokens),
    }
}

#[tactic(auto, unfolding(crate::specs::descent::Families::family_of))]
fn family_of(tokens: &[Token]) -> Family
    ensures { result ≡ family_of (kinds tokens.now) }
{
    if sees_word(tokens, b"CREATE") {
        created(behind(tokens))
    } else if sees_word(tokens, b"ALTER") {
        altered(behind(tokens))
    } else if sees_word(tokens, b"DROP") {
        if sees_word(behind(tokens), b"AUDIT") {
            Family::Audit
        } else {
            Family::Rights
        }
    } else if sees_word(tokens, b"GRANT") || sees_word(tokens, b"REVOKE") {
        Family::Rights
    } else if sees_word(tokens, b"AUDIT") || sees_word(tokens, b"NOAUDIT") {
        Family::Audit
    } else if sees_word(tokens, b"BEGIN") || sees_word(tokens, b"CALL") {
        Family::Call
    } else {
        Family::Rows
    }
}

// What CREATE creates, by the next word.
#[tactic(auto, unfolding(crate::specs::descent::Families::created))]
fn created(tokens: &[Token]) -> Family
    ensures { result ≡ created (kinds tokens.now) }
{
    if sees_word(tokens, b"TABLE") {
        Family::Table
    } else if sees_word(tokens, b"USER") {
        Family::User
    } else if sees_word(tokens, b"AUDIT") {
        Family::Policy
    } else {
        Family::Rights
    }
}

// What ALTER alters, by the next word.
#[tactic(auto, unfolding(crate::specs::descent::Families::altered))]
fn altered(tokens: &[Token]) -> Family
    ensures { result ≡ altered (kinds tokens.now) }
{
    if sees_word(tokens, b"USER") {
        Family::User
    } else {
        Family::Rights
    }
}
