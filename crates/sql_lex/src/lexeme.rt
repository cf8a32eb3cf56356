//! The token that bytes begin with.
ghost use Rattle.std.specs.Prelude.{◌≡◌, ◌^◌, ◌<◌, ◌≤◌, true, false, [], Some, None, pos, IfOk, MatchOption};
ghost use Rattle.std.specs.List.{list_all};
ghost use Rattle.std.specs.Str.Parse.{digits_value};
ghost use Rattle.sql_lex.specs.Bytes as class;
ghost use Rattle.sql_lex.specs.descent.Scan as spec;
ghost use Rattle.sql_lex.specs.Tokens.{StartsNoToken, StartsToken};

use crate::mark::mark_at;
use crate::run::{
    begins_with, begins_with_word_byte, behind, is_digit, is_letter, split_digits, split_quotable,
    split_word,
};
use crate::token::Kind;
use au_base::limits::NAME_BYTES;
use au_base::{Memory, Name, Text};
use std::alloc::Global;

/// What the token is that the bytes begin with, and what stands behind it, if they begin with one.
pub fn token_at(alloc: Global, bytes: &[u8]) -> Result<Option<(Kind, &[u8])>, Memory>
    ensures { IfOk result (λ found. MatchOption found (StartsNoToken bytes.now) (λ x. StartsToken bytes.now x.0 x.1.now)) }
{
    match lexeme(alloc, bytes)? {
        Some((kind, rest)) => Ok(Some((kind, rest))),
        None => Ok(None),
    }
}

#[tactic(auto, unfolding(crate::specs::descent::Scan::lexeme))]
fn lexeme(alloc: Global, bytes: &[u8]) -> Result<Option<(Kind, &[u8])>, Memory>
    ensures { IfOk result (λ found. MatchOption found (spec.lexeme bytes.now ≡ None) (λ x. spec.lexeme bytes.now ≡ Some (x.0, x.1.now))) }
{
    let [first, rest @ ..] = bytes else {
        return Ok(None);
    };
    if is_letter(*first) {
        word(alloc, bytes)
    } else if is_digit(*first) {
        Ok(number(bytes))
    } else if *first == b'"' {
        quoted(alloc, rest)
    } else if *first == b'\'' {
        literal(alloc, rest)
    } else {
        Ok(mark_at(*first, rest))
    }
}

#[tactic(auto, unfolding(crate::specs::descent::Scan::word))]
fn word(alloc: Global, bytes: &[u8]) -> Result<Option<(Kind, &[u8])>, Memory>
    ensures { IfOk result (λ found. MatchOption found (spec.word bytes.now ≡ None) (λ x. spec.word bytes.now ≡ Some (x.0, x.1.now))) }
{
    let (text, rest) = split_word(bytes);
    if text.len() > NAME_BYTES {
        return Ok(None);
    }
    let mut word = Text::from_ascii(alloc, text)?;
    word.make_ascii_uppercase();
    Ok(Some((Kind::Word(word), rest)))
}

// A name whose first `"` came before.
#[tactic(auto, unfolding(crate::specs::descent::Scan::quoted))]
fn quoted(alloc: Global, bytes: &[u8]) -> Result<Option<(Kind, &[u8])>, Memory>
    ensures { IfOk result (λ found. MatchOption found (spec.quoted bytes.now ≡ None) (λ x. spec.quoted bytes.now ≡ Some (x.0, x.1.now))) }
{
    let (name, rest) = split_quotable(bytes);
    if !begins_with(b'"', rest) {
        return Ok(None);
    }
    match Name::make(alloc, name)? {
        Some(name) => Ok(Some((Kind::Quoted(name), behind(rest)))),
        None => Ok(None),
    }
}

#[tactic(auto, unfolding(crate::specs::descent::Scan::number))]
fn number(bytes: &[u8]) -> Option<(Kind, &[u8])>
    ensures { MatchOption result (spec.number bytes.now ≡ None) (λ x. spec.number bytes.now ≡ Some (x.0, x.1.now)) }
{
    let (digits, rest) = split_digits(bytes);
    if begins_with_word_byte(rest) {
        return None;
    }
    match value_of(digits) {
        Some(value) => Some((Kind::Number(value), rest)),
        None => None,
    }
}

// The number that digits write, below 10^18.
fn value_of(digits: &[u8]) -> Option<i64>
    requires { list_all class.is_digit digits.now ≡ true }
    ensures { MatchOption result (10 ^ 18 ≤ digits_value 10 digits.now)
        (λ value. (digits_value 10 digits.now < 10 ^ 18) × (value ≡ pos (digits_value 10 digits.now))) }
{
    let mut value: u64 = 0;
    for digit in digits {
        value = value * 10 + u64::from(*digit - b'0');
        if value >= 1_000_000_000_000_000_000 {
            return None;
        }
    }
    Some(value as i64)
}

// A text whose first quote came before.
#[tactic(auto, unfolding(crate::specs::descent::Scan::literal))]
fn literal(alloc: Global, bytes: &[u8]) -> Result<Option<(Kind, &[u8])>, Memory>
    ensures { IfOk result (λ found. MatchOption found (spec.literal bytes.now ≡ None) (λ x. spec.literal bytes.now ≡ Some (x.0, x.1.now))) }
{
    match quoting(alloc, bytes)? {
        Some((text, rest)) => text_before(alloc, &text, rest),
        None => Ok(None),
    }
}

fn text_before<'t>(
    alloc: Global,
    text: &[u8],
    rest: &'t [u8],
) -> Result<Option<(Kind, &'t [u8])>, Memory>
    ensures { IfOk result (λ found. MatchOption found (spec.text_before text.now rest.now ≡ None)
        (λ x. spec.text_before text.now rest.now ≡ Some (x.0, x.1.now))) }
{
    match Text::make(alloc, text)? {
        Some(text) => Ok(Some((Kind::Text(text), rest))),
        None => Ok(None),
    }
}

// The bytes up to the closing quote, with one quote for two, and what stands behind it.
#[tactic(auto, unfolding(crate::specs::descent::Scan::quoting))]
fn quoting(alloc: Global, mut bytes: &[u8]) -> Result<Option<(Vec<u8>, &[u8])>, Memory>
    ensures { IfOk result (λ found. MatchOption found (spec.quoting false [] bytes.entry.now ≡ None)
        (λ x. spec.quoting false [] bytes.entry.now ≡ Some (x.0.items, x.1.now))) }
{
    let mut found = Vec::new(alloc);
    let mut is_quote = false;
    while let [first, rest @ ..] = bytes {
        if is_quote {
            if *first != b'\'' {
                return Ok(Some((found, bytes)));
            }
            found.push(b'\'')?;
            is_quote = false;
        } else if *first == b'\'' {
            is_quote = true;
        } else {
            found.push(*first)?;
        }
        bytes = rest;
    }
    if is_quote {
        Ok(Some((found, bytes)))
    } else {
        Ok(None)
    }
}
