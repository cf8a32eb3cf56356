//! The tokens from a place on.

ghost use Rattle.std.specs.Option.{option_map};
ghost use Rattle.std.specs.Prelude.{◌≡◌, ◌==◌, Some};
ghost use Rattle.sql_parse.specs.Symbols.{kinds, sees, mark_number};
ghost use Rattle.sql_parse.specs.descent.Reading.{behind, expect, whole};
ghost use Rattle.sql_parse.specs.descent.ReadTables.{past};

use sql_lex::{Kind, Mark, Token};

/// Whether this mark comes next.
pub fn sees_mark(tokens: &[Token], mark: Mark) -> bool
    ensures { result ≡ sees (Kind.Mark mark) (kinds tokens.now) }
{
    match tokens {
        [first, ..] => match &first.kind {
            Kind::Mark(found) => is_same(mark, *found),
            _ => false,
        },
        [] => false,
    }
}

/// Whether this word comes next.
pub fn sees_word(tokens: &[Token], word: &[u8]) -> bool
    ensures { result ≡ sees (Kind.Word word.now) (kinds tokens.now) }
{
    match tokens {
        [first, ..] => match &first.kind {
            Kind::Word(found) => word == found.as_bytes(),
            _ => false,
        },
        [] => false,
    }
}

/// The tokens behind the next.
pub fn behind(tokens: &[Token]) -> &[Token]
    ensures { kinds result.now ≡ behind (kinds tokens.now) }
{
    match tokens {
        [_, rest @ ..] => rest,
        [] => tokens,
    }
}

/// The tokens behind this word, if it comes next, or else all of them.
pub fn past_word<'t>(tokens: &'t [Token], word: &[u8]) -> &'t [Token]
    ensures { kinds result.now ≡ past (Kind.Word word.now) (kinds tokens.now) }
{
    if sees_word(tokens, word) {
        behind(tokens)
    } else {
        tokens
    }
}

/// The tokens behind this mark, if it comes next, or else all of them.
pub fn past_mark(tokens: &[Token], mark: Mark) -> &[Token]
    ensures { kinds result.now ≡ past (Kind.Mark mark) (kinds tokens.now) }
{
    if sees_mark(tokens, mark) {
        behind(tokens)
    } else {
        tokens
    }
}

/// The tokens behind this mark. `None` where it doesn't come next.
pub fn expect_mark(tokens: &[Token], mark: Mark) -> Option<&[Token]>
    ensures { option_map (λ rest. kinds rest.now) result ≡ expect (Kind.Mark mark) (kinds tokens.now) }
{
    if sees_mark(tokens, mark) {
        Some(behind(tokens))
    } else {
        None
    }
}

/// The tokens behind this word. `None` where it doesn't come next.
pub fn expect_word<'t>(tokens: &'t [Token], word: &[u8]) -> Option<&'t [Token]>
    ensures { option_map (λ rest. kinds rest.now) result ≡ expect (Kind.Word word.now) (kinds tokens.now) }
{
    if sees_word(tokens, word) {
        Some(behind(tokens))
    } else {
        None
    }
}

/// What was read, where that is all.
pub fn all_of<T: Drop>(found: T, rest: &[Token]) -> Option<T>
    ensures { result ≡ whole (Some (found, kinds rest.now)) }
{
    if rest.is_empty() { Some(found) } else { None }
}

fn is_same(left: Mark, right: Mark) -> bool
    ensures { result ≡ (mark_number left == mark_number right) }
{
    left == right
}
