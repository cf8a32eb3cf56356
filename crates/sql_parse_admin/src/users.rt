//! CREATE USER and ALTER USER.
ghost use Rattle.std.specs.Prelude.{◌≡◌, List, ℕ, drop, true};
ghost use Rattle.sql_lex.specs.declared.token.Token.{Token as Lexeme};
ghost use Rattle.sql_ast.specs.declared.statement.Statement.{Statement as Tree};
ghost use Rattle.sql_parse.specs.Conditions.{opens_few};
ghost use Rattle.sql_parse.specs.Symbols.{kinds};
ghost use Rattle.sql_parse.specs.Whole.{Finds};
ghost use Rattle.sql_parse.specs.descent.Reading.{Gives};
ghost use Rattle.sql_parse_admin.specs.descent.ReadUsers as spec;
ghost use Rattle.sql_parse.specs.UserStatements.{IsUserStatement};

use au_base::{Memory, Name, Text};
use sql_ast::{Password, Statement};
use sql_lex::{Kind, Token};
use sql_parse::Stop;
use sql_parse::cursor::{expect_word, sees_word};
use sql_parse::endings::whole;
use sql_parse::names::name;
use std::alloc::Global;

/// The CREATE USER or ALTER USER that the tokens of a text are, with `;` behind it or without.
/// `None` where they are none. Nothing is said of tokens that open over 100 parentheses at once.
pub fn user_statement(
    alloc: Global,
    text: &[u8],
    tokens: &[Token],
) -> Result<Option<Statement>, Memory>
    ensures { opens_few 0 (kinds tokens.now) ≡ true → Finds (IsUserStatement text.now tokens.now) result }
{
    whole(user(alloc, text, tokens))
}

/// The tokens of a text are one such statement at most.
pub fn one_user_statement()
    ensures { (text : List ℕ) (ts : List Lexeme) (x y : Tree) → IsUserStatement text ts x → IsUserStatement text ts y → x ≡ y }
{}

#[tactic(auto, unfolding(crate::specs::descent::ReadUsers::user))]
fn user<'t>(
    alloc: Global,
    text: &[u8],
    tokens: &'t [Token],
) -> Result<(Statement, &'t [Token]), Stop>
    ensures { Gives (λ x. (x.0, x.1.now)) result (spec.user text.now tokens.now) }
{
    if sees_word(tokens, b"CREATE") {
        let (user, _) = heading(alloc, tokens, b"CREATE")?;
        let (password, rest) = password(alloc, text, past_heading(tokens))?;
        return Ok((Statement::CreateUser { user, password }, rest));
    }
    let (user, _) = heading(alloc, tokens, b"ALTER")?;
    let (password, rest) = password(alloc, text, past_heading(tokens))?;
    Ok((Statement::AlterUser { user, password }, rest))
}

// The word, USER, a name, IDENTIFIED and BY.
#[tactic(auto, unfolding(crate::specs::descent::ReadUsers::heading))]
fn heading<'t>(alloc: Global, tokens: &'t [Token], word: &[u8]) -> Result<(Name, &'t [Token]), Stop>
    ensures { Gives (λ x. (x.0, kinds x.1.now)) result (spec.heading word.now (kinds tokens.now)) }
{
    let rest = expect_word(tokens, word).ok_or(Stop::Unread)?;
    let rest = expect_word(rest, b"USER").ok_or(Stop::Unread)?;
    let (user, rest) = name(alloc, rest)?;
    let rest = expect_word(rest, b"IDENTIFIED").ok_or(Stop::Unread)?;
    let rest = expect_word(rest, b"BY").ok_or(Stop::Unread)?;
    Ok((user, rest))
}

fn past_heading(tokens: &[Token]) -> &[Token]
    ensures { result.now ≡ drop 5 tokens.now }
{
    match tokens {
        [_, _, _, _, _, rest @ ..] => rest,
        _ => &[],
    }
}

fn password<'t>(
    alloc: Global,
    text: &[u8],
    tokens: &'t [Token],
) -> Result<(Password, &'t [Token]), Stop>
    ensures { Gives (λ x. (x.0, x.1.now)) result (spec.password text.now tokens.now) }
{
    match tokens {
        [first, rest @ ..] => Ok((password_of(alloc, text, first)?, rest)),
        [] => Err(Stop::Unread),
    }
}

fn password_of(alloc: Global, text: &[u8], token: &Token) -> Result<Password, Stop>
    ensures { Gives (λ x. x) result (spec.password_of text.now token.now.kind token.now.from token.now.to) }
{
    let (from, to) = (token.from, token.to);
    match &token.kind {
        Kind::Word(_) => written(alloc, text, from, to),
        Kind::Quoted(name) => Ok(Password {
            text: name.as_text().clone()?,
            from,
            to,
        }),
        _ => Err(Stop::Unread),
    }
}

// The bytes of the text at these places.
fn written(alloc: Global, text: &[u8], from: u32, to: u32) -> Result<Password, Stop>
    ensures { Gives (λ x. x) result (spec.written text.now from to) }
{
    let Some(bytes) = text.get(from as usize..to as usize) else {
        return Err(Stop::Unread);
    };
    match Text::make(alloc, bytes)? {
        Some(text) => Ok(Password { text, from, to }),
        None => Err(Stop::Unread),
    }
}
