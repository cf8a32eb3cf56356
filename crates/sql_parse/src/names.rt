//! Names and columns.
ghost use Rattle.std.specs.Prelude.{◌≡◌, map};
ghost use Rattle.std.specs.Str.{bytes_eq};
ghost use Rattle.std.specs.List.{list_any};
ghost use Rattle.sql_parse.specs.Symbols.{kinds, is_free, is_reserved};
ghost use Rattle.sql_parse.specs.descent.ReservedWords.{AreReservedFrom};
ghost use Rattle.sql_parse.specs.descent.Reading.{Gives};
ghost use Rattle.sql_parse.specs.descent.Reading as spec;

use crate::cursor::{behind, sees_mark};
use crate::stop::Stop;
use au_base::Name;
use au_base::limits::NAME_BYTES;
use sql_ast::Expr;
use sql_lex::{Kind, Mark, Token};
use std::alloc::Global;

fn is_free(word: &[u8]) -> bool
    ensures { result ≡ is_free word.now }
{
    !is_reserved(word) && 1 <= word.len() && word.len() <= NAME_BYTES
}

// No reserved word has fewer than two bytes.
#[tactic(auto, unfolding(crate::specs::descent::ReservedWords::AreReservedFrom))]
fn is_reserved(word: &[u8]) -> bool
    ensures { result ≡ is_reserved word.now }
{
    match word {
        [first, _, ..] => is_among(words_from(*first), word),
        _ => false,
    }
}

// The words that begin with this byte and can't be names without quotes.
#[tactic(auto, unfolding(crate::specs::Symbols::is_reserved, crate::specs::descent::ReservedWords::AreReservedFrom))]
fn words_from(first: u8) -> &'static [&'static [u8]]
    ensures { AreReservedFrom first (map (λ word. word.now) result.now) }
{
    match first {
        b'A' => &[
            b"ACTIONS", b"ALL", b"ALTER", b"AND", b"AS", b"ASC", b"AUDIT",
        ],
        b'B' => &[b"BEGIN", b"BETWEEN", b"BY"],
        b'C' => &[b"CALL", b"COMMIT", b"CREATE"],
        b'D' => &[b"DELETE", b"DESC", b"DROP"],
        b'E' => &[b"END", b"EXCEPT"],
        b'F' => &[b"FALSE", b"FROM"],
        b'G' => &[b"GRANT"],
        b'I' => &[b"IDENTIFIED", b"IN", b"INNER", b"INSERT", b"INTO", b"IS"],
        b'J' => &[b"JOIN"],
        b'L' => &[b"LIKE"],
        b'N' => &[b"NOAUDIT", b"NOT", b"NULL", b"NUMBER"],
        b'O' => &[b"ON", b"OR", b"ORDER"],
        b'P' => &[b"PRIMARY", b"PRIVILEGES"],
        b'R' => &[b"REVOKE", b"ROLES", b"ROLLBACK"],
        b'S' => &[b"SELECT", b"SET", b"SYSTIMESTAMP"],
        b'T' => &[b"TABLE", b"TIMESTAMP", b"TO", b"TRUE"],
        b'U' => &[b"UPDATE", b"USER"],
        b'V' => &[b"VALUES", b"VARCHAR2"],
        b'W' => &[b"WHEN", b"WHENEVER", b"WHERE", b"WITH"],
        _ => &[],
    }
}

fn is_among(mut words: &[&[u8]], word: &[u8]) -> bool
    ensures { result ≡ list_any (bytes_eq word.now) (map (λ known. known.now) words.entry.now) }
{
    while let [known, rest @ ..] = words {
        // The lengths tell most words apart without the call that compares bytes.
        if word.len() == known.len() && word == *known {
            return true;
        }
        words = rest;
    }
    false
}

fn name_of(alloc: Global, kind: &Kind) -> Result<Name, Stop>
    ensures { Gives (λ n. n) result (spec.name_of kind.now) }
{
    match kind {
        Kind::Quoted(name) => Ok(name.clone()?),
        Kind::Word(word) => {
            if !is_free(word.as_bytes()) {
                return Err(Stop::Unread);
            }
            match Name::from_text(word.clone()?) {
                Some(name) => Ok(name),
                None => Err(Stop::Unread),
            }
        }
        _ => Err(Stop::Unread),
    }
}

#[tactic(auto, unfolding(crate::specs::descent::Reading::name))]
pub fn name(alloc: Global, tokens: &[Token]) -> Result<(Name, &[Token]), Stop>
    ensures { Gives (λ x. (x.0, kinds x.1.now)) result (spec.name (kinds tokens.now)) }
{
    match tokens {
        [first, rest @ ..] => Ok((name_of(alloc, &first.kind)?, rest)),
        [] => Err(Stop::Unread),
    }
}

#[tactic(auto, unfolding(crate::specs::descent::Reading::column))]
pub fn column(alloc: Global, tokens: &[Token]) -> Result<(Expr, &[Token]), Stop>
    ensures { Gives (λ x. (x.0, kinds x.1.now)) result (spec.column (kinds tokens.now)) }
{
    let (first, rest) = name(alloc, tokens)?;
    if !sees_mark(rest, Mark::Period) {
        return Ok((Expr::Column(None, first), rest));
    }
    let (second, rest) = name(alloc, behind(rest))?;
    Ok((Expr::Column(Some(first), second), rest))
}
