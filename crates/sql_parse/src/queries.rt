//! SELECT.
ghost use Rattle.std.specs.Prelude.{◌≡◌};
ghost use Rattle.sql_parse.specs.Symbols.{kinds};
ghost use Rattle.sql_parse.specs.descent.Reading.{Gives, inside};
ghost use Rattle.sql_parse.specs.descent.ReadQueries as spec;

use crate::changes::filter;
use crate::cursor::{behind, expect_mark, expect_word, past_word, sees_mark, sees_word};
use crate::expression::{cond, sum};
use crate::lists::{Part, parted};
use crate::names::name;
use crate::stop::Stop;
use crate::tables::{alias, aliased, qualified};
use au_base::List;
use sql_ast::{Count, Expr, FromClause, Item, Items, Join, Select, SortKey};
use sql_lex::{Mark, Token};
use std::alloc::Global;

/// A SELECT whose first word came before.
#[tactic(auto, unfolding(crate::specs::descent::ReadQueries::select))]
pub fn select(alloc: Global, depth: u32, tokens: &[Token]) -> Result<(Select, &[Token]), Stop>
    ensures { Gives (λ x. (x.0, kinds x.1.now)) result (spec.select (inside depth) (kinds tokens.now)) }
{
    let (items, rest) = items(alloc, depth, tokens)?;
    let rest = expect_word(rest, b"FROM").ok_or(Stop::Unread)?;
    let (from, rest) = from_clause(alloc, depth, rest)?;
    let (condition, rest) = filter(alloc, depth, rest)?;
    let (order, rest) = sorted(alloc, rest)?;
    let found = Select {
        items,
        from,
        condition,
        order,
    };
    Ok((found, rest))
}

/// Whether COUNT and its opening parenthesis come next.
pub fn counts(tokens: &[Token]) -> bool
    ensures { result ≡ spec.counts (kinds tokens.now) }
{
    sees_word(tokens, b"COUNT") && sees_mark(behind(tokens), Mark::OpenParenthesis)
}

/// What follows SELECT COUNT and its opening parenthesis.
#[tactic(auto, unfolding(crate::specs::descent::ReadQueries::count))]
pub fn count(alloc: Global, depth: u32, tokens: &[Token]) -> Result<(Count, &[Token]), Stop>
    ensures { Gives (λ x. (x.0, kinds x.1.now)) result (spec.count (inside depth) (kinds tokens.now)) }
{
    let rest = expect_mark(tokens, Mark::Asterisk).ok_or(Stop::Unread)?;
    let rest = expect_mark(rest, Mark::CloseParenthesis).ok_or(Stop::Unread)?;
    let rest = expect_word(rest, b"FROM").ok_or(Stop::Unread)?;
    let (table, rest) = aliased(alloc, rest)?;
    let (condition, rest) = filter(alloc, depth, rest)?;
    Ok((Count { table, condition }, rest))
}

#[tactic(auto, unfolding(crate::specs::descent::ReadQueries::items_at))]
fn items(alloc: Global, depth: u32, tokens: &[Token]) -> Result<(Items, &[Token]), Stop>
    ensures { Gives (λ x. (x.0, kinds x.1.now)) result (spec.items_at (inside depth) (kinds tokens.now)) }
{
    if sees_mark(tokens, Mark::Asterisk) {
        return Ok((Items::All, behind(tokens)));
    }
    let (found, rest) = parted(alloc, &ItemPart { depth }, tokens)?;
    Ok((Items::Listed(found), rest))
}

#[derive(Drop)]
struct ItemPart {
    depth: u32,
}

impl Part for ItemPart {
    type Tree = Item;

    ghost reading = { λ part. spec.item (inside part.depth) };

    fn read<'t>(&self, alloc: Global, tokens: &'t [Token]) -> Result<(Item, &'t [Token]), Stop> {
        item(alloc, self.depth, tokens)
    }
}

// A name with a comma behind it is told at once, without the descent.
#[tactic(auto, using(crate::proofs::LoneItems::lone_item))]
fn item(alloc: Global, depth: u32, tokens: &[Token]) -> Result<(Item, &[Token]), Stop>
    ensures { Gives (λ x. (x.0, kinds x.1.now)) result (spec.item (inside depth) (kinds tokens.now)) }
{
    if sees_mark(behind(tokens), Mark::Comma) {
        let (column, rest) = alias(alloc, tokens)?;
        if let Some(column) = column {
            let value = Expr::Column(None, column);
            return Ok((Item { value, alias: None }, rest));
        }
    }
    any_item(alloc, depth, tokens)
}

#[tactic(auto, unfolding(crate::specs::descent::ReadQueries::item))]
fn any_item(alloc: Global, depth: u32, tokens: &[Token]) -> Result<(Item, &[Token]), Stop>
    ensures { Gives (λ x. (x.0, kinds x.1.now)) result (spec.item (inside depth) (kinds tokens.now)) }
{
    let (value, rest) = sum(alloc, depth, tokens)?;
    if sees_word(rest, b"AS") {
        let (called, rest) = name(alloc, behind(rest))?;
        let found = Item {
            value,
            alias: Some(called),
        };
        return Ok((found, rest));
    }
    let (alias, rest) = alias(alloc, rest)?;
    Ok((Item { value, alias }, rest))
}

#[tactic(auto, unfolding(crate::specs::descent::ReadQueries::from_clause))]
fn from_clause(alloc: Global, depth: u32, tokens: &[Token]) -> Result<(FromClause, &[Token]), Stop>
    ensures { Gives (λ x. (x.0, kinds x.1.now)) result (spec.from_clause (inside depth) (kinds tokens.now)) }
{
    let (first, rest) = aliased(alloc, tokens)?;
    let (joins, rest) = furthers(alloc, depth, rest)?;
    Ok((FromClause { first, joins }, rest))
}

// The tables behind the first.
#[tactic(auto, using(crate::proofs::Turns::turns), unfolding(crate::specs::descent::ReadQueries::furthers))]
fn furthers(alloc: Global, depth: u32, tokens: &[Token]) -> Result<(List<Join>, &[Token]), Stop>
    ensures { Gives (λ x. (x.0, kinds x.1.now)) result (spec.furthers (inside depth) (kinds tokens.now)) }
{
    let mut parts = List::new(alloc);
    let mut rest = tokens;
    for _turn in 0..tokens.len() {
        if !goes_on(rest) {
            break;
        }
        let (part, after) = further(alloc, depth, rest)?;
        parts.push(part)?;
        rest = after;
    }
    Ok((parts, rest))
}

fn goes_on(tokens: &[Token]) -> bool
    ensures { result ≡ spec.goes_on (kinds tokens.now) }
{
    sees_mark(tokens, Mark::Comma) || sees_word(tokens, b"INNER") || sees_word(tokens, b"JOIN")
}

#[tactic(auto, unfolding(crate::specs::descent::ReadQueries::further))]
fn further(alloc: Global, depth: u32, tokens: &[Token]) -> Result<(Join, &[Token]), Stop>
    ensures { Gives (λ x. (x.0, kinds x.1.now)) result (spec.further (inside depth) (kinds tokens.now)) }
{
    if sees_mark(tokens, Mark::Comma) {
        let (table, rest) = aliased(alloc, behind(tokens))?;
        return Ok((Join { table, on: None }, rest));
    }
    let rest = expect_word(past_word(tokens, b"INNER"), b"JOIN").ok_or(Stop::Unread)?;
    joined(alloc, depth, rest)
}

// A table whose JOIN came before.
#[tactic(auto, unfolding(crate::specs::descent::ReadQueries::joined))]
fn joined(alloc: Global, depth: u32, tokens: &[Token]) -> Result<(Join, &[Token]), Stop>
    ensures { Gives (λ x. (x.0, kinds x.1.now)) result (spec.joined (inside depth) (kinds tokens.now)) }
{
    let (table, rest) = aliased(alloc, tokens)?;
    let rest = expect_word(rest, b"ON").ok_or(Stop::Unread)?;
    let (on, rest) = cond(alloc, depth, rest)?;
    let on = Some(on);
    Ok((Join { table, on }, rest))
}

fn sorted(alloc: Global, tokens: &[Token]) -> Result<(Option<List<SortKey>>, &[Token]), Stop>
    ensures { Gives (λ x. (x.0, kinds x.1.now)) result (spec.sorted (kinds tokens.now)) }
{
    if !sees_word(tokens, b"ORDER") {
        return Ok((None, tokens));
    }
    let (found, rest) = orders(alloc, behind(tokens))?;
    Ok((Some(found), rest))
}

// The keys whose ORDER came before.
#[tactic(auto, unfolding(crate::specs::descent::ReadQueries::orders))]
fn orders(alloc: Global, tokens: &[Token]) -> Result<(List<SortKey>, &[Token]), Stop>
    ensures { Gives (λ x. (x.0, kinds x.1.now)) result (spec.orders (kinds tokens.now)) }
{
    let rest = expect_word(tokens, b"BY").ok_or(Stop::Unread)?;
    parted(alloc, &SortKeyPart, rest)
}

struct SortKeyPart;

impl Part for SortKeyPart {
    type Tree = SortKey;

    ghost reading = { λ _. spec.order };

    fn read<'t>(&self, alloc: Global, tokens: &'t [Token]) -> Result<(SortKey, &'t [Token]), Stop> {
        order(alloc, tokens)
    }
}

#[tactic(auto, unfolding(crate::specs::descent::ReadQueries::order))]
fn order(alloc: Global, tokens: &[Token]) -> Result<(SortKey, &[Token]), Stop>
    ensures { Gives (λ x. (x.0, kinds x.1.now)) result (spec.order (kinds tokens.now)) }
{
    let ((table, column), rest) = qualified(alloc, tokens)?;
    let descending = sees_word(rest, b"DESC");
    let rest = if descending {
        behind(rest)
    } else {
        past_word(rest, b"ASC")
    };
    let found = SortKey {
        table,
        column,
        descending,
    };
    Ok((found, rest))
}
