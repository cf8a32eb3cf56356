//! Conditions and expressions, by descent.
ghost use Rattle.std.specs.Prelude.{◌≡◌};
ghost use Rattle.sql_parse.specs.Symbols.{comma, kinds};
ghost use Rattle.sql_parse.specs.descent.Reading.{Gives};
ghost use Rattle.sql_parse.specs.descent.Reading as spec;

use crate::atom::worded_atom;
use crate::cursor::{behind, expect_mark, expect_word, sees_mark, sees_word};
use crate::names::column;
use crate::stop::Stop;
use au_base::{Boxed, List};
use sql_ast::{Expr, Relation};
use sql_lex::{Kind, Mark, Token};
use std::alloc::Global;

fn relation_of(mark: Mark) -> Option<Relation>
    ensures { result ≡ spec.relation_of_mark mark }
{
    match mark {
        Mark::Equal => Some(Relation::Equal),
        Mark::LessGreater | Mark::NotEqual => Some(Relation::Unequal),
        Mark::Less => Some(Relation::Less),
        Mark::LessEqual => Some(Relation::LessEqual),
        Mark::Greater => Some(Relation::Greater),
        Mark::GreaterEqual => Some(Relation::GreaterEqual),
        _ => None,
    }
}

// What the comparison is that comes next.
#[tactic(auto, unfolding(crate::specs::descent::Reading::relation_at))]
fn relation_at(tokens: &[Token]) -> Option<Relation>
    ensures { result ≡ spec.relation_at (kinds tokens.now) }
{
    match tokens {
        [first, ..] => match &first.kind {
            Kind::Mark(mark) => relation_of(*mark),
            _ => None,
        },
        [] => None,
    }
}

// [NOT], and whether it stands there.
fn negation(tokens: &[Token]) -> (bool, &[Token])
    ensures negates { result.0 ≡ spec.negates (kinds tokens.now) }
    ensures rest { kinds result.1.now ≡ spec.past_not (kinds tokens.now) }
{
    if sees_word(tokens, b"NOT") {
        (true, behind(tokens))
    } else {
        (false, tokens)
    }
}

// The one part, or all of them where there are others.
fn sole<T: Drop>(parts: List<T>) -> Result<T, List<T>>
    ensures { result ≡ spec.sole parts }
{
    if parts.len() != 1 {
        return Err(parts);
    }
    let mut parts = parts.into_vec();
    match parts.pop() {
        Some(part) => Ok(part),
        None => Err(List::from_vec(parts)),
    }
}

/// What stands within parentheses. The number counts how many more may be open.
#[cycle(expression)]
#[tactic(auto, unfolding(crate::specs::descent::Reading::inside))]
fn inside(alloc: Global, depth: u32, tokens: &[Token]) -> Result<(Expr, &[Token]), Stop>
    ensures { Gives (λ x. (x.0, kinds x.1.now)) result (spec.inside depth (kinds tokens.now)) }
{
    if depth == 0 {
        return Err(Stop::Unread);
    }
    cond(alloc, depth - 1, tokens)
}

#[cycle(expression)]
#[tactic(auto, unfolding(crate::specs::descent::Reading::atom))]
fn atom(alloc: Global, depth: u32, tokens: &[Token]) -> Result<(Expr, &[Token]), Stop>
    ensures { Gives (λ x. (x.0, kinds x.1.now)) result (spec.atom (spec.inside depth) (kinds tokens.now)) }
{
    let [first, rest @ ..] = tokens else {
        return Err(Stop::Unread);
    };
    match &first.kind {
        Kind::Number(number) => Ok((Expr::Number(*number), rest)),
        Kind::Text(text) => Ok((Expr::Literal(text.clone()?), rest)),
        Kind::Mark(Mark::OpenParenthesis) => {
            let (found, rest) = inside(alloc, depth, rest)?;
            let rest = expect_mark(rest, Mark::CloseParenthesis).ok_or(Stop::Unread)?;
            Ok((found, rest))
        }
        Kind::Mark(_) => Err(Stop::Unread),
        Kind::Quoted(_) => column(alloc, tokens),
        Kind::Word(_) => worded_atom(alloc, tokens),
    }
}

#[cycle(expression)]
#[tactic(auto, unfolding(crate::specs::descent::Reading::factor))]
fn factor(alloc: Global, depth: u32, tokens: &[Token]) -> Result<(Expr, &[Token]), Stop>
    ensures { Gives (λ x. (x.0, kinds x.1.now)) result (spec.factor (spec.inside depth) (kinds tokens.now)) }
{
    if !sees_mark(tokens, Mark::Minus) {
        return atom(alloc, depth, tokens);
    }
    let (found, rest) = atom(alloc, depth, behind(tokens))?;
    Ok((Expr::Negate(Boxed::new(alloc, found)?), rest))
}

#[cycle(expression)]
#[tactic(auto, unfolding(crate::specs::descent::Reading::term, crate::specs::descent::Reading::parted, crate::specs::descent::Reading::product))]
fn term(alloc: Global, depth: u32, tokens: &[Token]) -> Result<(Expr, &[Token]), Stop>
    ensures { Gives (λ x. (x.0, kinds x.1.now)) result (spec.term (spec.inside depth) (kinds tokens.now)) }
{
    let (first, rest) = factor(alloc, depth, tokens)?;
    product(alloc, depth, first, rest)
}

// A term whose first factor came before.
#[cycle(expression)]
#[tactic(auto, using(crate::proofs::Turns::turns), unfolding(crate::specs::descent::Reading::product))]
fn product(
    alloc: Global,
    depth: u32,
    first: Expr,
    tokens: &[Token],
) -> Result<(Expr, &[Token]), Stop>
    ensures { Gives (λ x. (x.0, kinds x.1.now)) result (spec.product (spec.inside depth) first (kinds tokens.entry.now)) }
{
    if !sees_mark(tokens, Mark::Asterisk) {
        return Ok((first, tokens));
    }
    let mut rest = tokens;
    let mut parts = List::new(alloc);
    parts.push(first)?;
    for _turn in 0..tokens.len() {
        if !sees_mark(rest, Mark::Asterisk) {
            break;
        }
        let (part, after) = factor(alloc, depth, behind(rest))?;
        parts.push(part)?;
        rest = after;
    }
    match sole(parts) {
        Ok(part) => Ok((part, rest)),
        Err(parts) => Ok((Expr::Product(parts), rest)),
    }
}

/// A factor alone, as most sums are, is told at once.
#[cycle(expression)]
#[tactic(auto, using(crate::proofs::Turns::turns), unfolding(crate::specs::descent::Reading::sum, crate::specs::descent::Reading::summands, crate::specs::descent::Reading::term, crate::specs::descent::Reading::parted, crate::specs::descent::Reading::product, crate::specs::descent::Reading::summation, crate::specs::descent::Reading::further_summands))]
pub fn sum(alloc: Global, depth: u32, tokens: &[Token]) -> Result<(Expr, &[Token]), Stop>
    ensures { Gives (λ x. (x.0, kinds x.1.now)) result (spec.sum (spec.inside depth) (kinds tokens.now)) }
{
    let (first, rest) = factor(alloc, depth, tokens)?;
    if !sees_mark(rest, Mark::Asterisk) && !is_signed(rest) {
        return Ok((first, rest));
    }
    let (first, rest) = product(alloc, depth, first, rest)?;
    summation(alloc, depth, first, rest)
}

// A sum whose first term came before.
#[cycle(expression)]
#[tactic(auto, using(crate::proofs::Turns::turns), unfolding(crate::specs::descent::Reading::summation, crate::specs::descent::Reading::further_summands))]
fn summation(
    alloc: Global,
    depth: u32,
    first: Expr,
    tokens: &[Token],
) -> Result<(Expr, &[Token]), Stop>
    ensures { Gives (λ x. (x.0, kinds x.1.now)) result (spec.summation (spec.inside depth) first (kinds tokens.entry.now)) }
{
    if !is_signed(tokens) {
        return Ok((first, tokens));
    }
    let mut rest = tokens;
    let mut parts = List::new(alloc);
    parts.push((false, first))?;
    for _turn in 0..tokens.len() {
        if !is_signed(rest) {
            break;
        }
        let is_minus = sees_mark(rest, Mark::Minus);
        let (part, after) = term(alloc, depth, behind(rest))?;
        parts.push((is_minus, part))?;
        rest = after;
    }
    match sole(parts) {
        Ok((_, part)) => Ok((part, rest)),
        Err(parts) => Ok((Expr::Sum(parts), rest)),
    }
}

// Whether a sign comes next.
fn is_signed(tokens: &[Token]) -> bool
    ensures { result ≡ spec.signed (kinds tokens.now) }
{
    sees_mark(tokens, Mark::Plus) || sees_mark(tokens, Mark::Minus)
}

#[cycle(expression)]
#[tactic(auto, using(crate::proofs::Turns::turns), unfolding(crate::specs::descent::Reading::parted))]
pub fn sums(alloc: Global, depth: u32, tokens: &[Token]) -> Result<(List<Expr>, &[Token]), Stop>
    ensures { Gives (λ x. (x.0, kinds x.1.now)) result (spec.parted comma (spec.sum (spec.inside depth)) (kinds tokens.now)) }
{
    let (first, mut rest) = sum(alloc, depth, tokens)?;
    let mut parts = List::new(alloc);
    parts.push(first)?;
    for _turn in 0..rest.len() {
        if !sees_mark(rest, Mark::Comma) {
            break;
        }
        let (part, after) = sum(alloc, depth, behind(rest))?;
        parts.push(part)?;
        rest = after;
    }
    Ok((parts, rest))
}

// What follows a sum in a test.
#[cycle(expression)]
#[tactic(auto, unfolding(crate::specs::descent::Reading::tested, crate::specs::descent::Reading::within, crate::specs::descent::Reading::between))]
fn tested(alloc: Global, depth: u32, left: Expr, tokens: &[Token]) -> Result<(Expr, &[Token]), Stop>
    ensures { Gives (λ x. (x.0, kinds x.1.now)) result (spec.tested (spec.inside depth) left (kinds tokens.entry.now)) }
{
    if let Some(relation) = relation_at(tokens) {
        let (right, rest) = sum(alloc, depth, behind(tokens))?;
        let (left, right) = (Boxed::new(alloc, left)?, Boxed::new(alloc, right)?);
        return Ok((Expr::Compare(relation, left, right), rest));
    }
    if sees_word(tokens, b"IS") {
        let (negates, rest) = negation(behind(tokens));
        let rest = expect_word(rest, b"NULL").ok_or(Stop::Unread)?;
        return Ok((Expr::IsNull(Boxed::new(alloc, left)?, negates), rest));
    }
    let (negates, next) = negation(tokens);
    if sees_word(next, b"LIKE") {
        let (right, rest) = sum(alloc, depth, behind(next))?;
        let (left, right) = (Boxed::new(alloc, left)?, Boxed::new(alloc, right)?);
        return Ok((Expr::Like(left, right, negates), rest));
    }
    if sees_word(next, b"IN") {
        let rest = expect_mark(behind(next), Mark::OpenParenthesis).ok_or(Stop::Unread)?;
        let (among, rest) = sums(alloc, depth, rest)?;
        let rest = expect_mark(rest, Mark::CloseParenthesis).ok_or(Stop::Unread)?;
        return Ok((Expr::In(Boxed::new(alloc, left)?, among, negates), rest));
    }
    if sees_word(next, b"BETWEEN") {
        let (low, rest) = sum(alloc, depth, behind(next))?;
        let rest = expect_word(rest, b"AND").ok_or(Stop::Unread)?;
        let (high, rest) = sum(alloc, depth, rest)?;
        let (left, low) = (Boxed::new(alloc, left)?, Boxed::new(alloc, low)?);
        return Ok((
            Expr::Between(left, low, Boxed::new(alloc, high)?, negates),
            rest,
        ));
    }
    if negates {
        return Err(Stop::Unread);
    }
    Ok((left, tokens))
}

#[cycle(expression)]
#[tactic(auto, unfolding(crate::specs::descent::Reading::unit, crate::specs::descent::Reading::testing))]
fn unit(alloc: Global, depth: u32, tokens: &[Token]) -> Result<(Expr, &[Token]), Stop>
    ensures { Gives (λ x. (x.0, kinds x.1.now)) result (spec.unit (spec.inside depth) (kinds tokens.now)) }
{
    let (negates, rest) = negation(tokens);
    let (left, rest) = sum(alloc, depth, rest)?;
    let (found, rest) = tested(alloc, depth, left, rest)?;
    if negates {
        return Ok((Expr::Not(Boxed::new(alloc, found)?), rest));
    }
    Ok((found, rest))
}

#[cycle(expression)]
#[tactic(auto, using(crate::proofs::Turns::turns), unfolding(crate::specs::descent::Reading::conj, crate::specs::descent::Reading::parted))]
fn conj(alloc: Global, depth: u32, tokens: &[Token]) -> Result<(Expr, &[Token]), Stop>
    ensures { Gives (λ x. (x.0, kinds x.1.now)) result (spec.conj (spec.inside depth) (kinds tokens.now)) }
{
    let (first, mut rest) = unit(alloc, depth, tokens)?;
    if !sees_word(rest, b"AND") {
        return Ok((first, rest));
    }
    let mut parts = List::new(alloc);
    parts.push(first)?;
    for _turn in 0..rest.len() {
        if !sees_word(rest, b"AND") {
            break;
        }
        let (part, after) = unit(alloc, depth, behind(rest))?;
        parts.push(part)?;
        rest = after;
    }
    match sole(parts) {
        Ok(part) => Ok((part, rest)),
        Err(parts) => Ok((Expr::And(parts), rest)),
    }
}

#[cycle(expression)]
#[tactic(auto, using(crate::proofs::Turns::turns), unfolding(crate::specs::descent::Reading::cond, crate::specs::descent::Reading::parted))]
pub fn cond(alloc: Global, depth: u32, tokens: &[Token]) -> Result<(Expr, &[Token]), Stop>
    ensures { Gives (λ x. (x.0, kinds x.1.now)) result (spec.cond (spec.inside depth) (kinds tokens.now)) }
{
    let (first, mut rest) = conj(alloc, depth, tokens)?;
    if !sees_word(rest, b"OR") {
        return Ok((first, rest));
    }
    let mut parts = List::new(alloc);
    parts.push(first)?;
    for _turn in 0..rest.len() {
        if !sees_word(rest, b"OR") {
            break;
        }
        let (part, after) = conj(alloc, depth, behind(rest))?;
        parts.push(part)?;
        rest = after;
    }
    match sole(parts) {
        Ok(part) => Ok((part, rest)),
        Err(parts) => Ok((Expr::Or(parts), rest)),
    }
}
