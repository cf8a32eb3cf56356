//! Trees with places in place of names.
ghost use Rattle.std.specs.Prelude.{◌≡◌, IfOk};
ghost use Rattle.au_expr.specs.Resolving.{all_placed, all_signed_placed, placed};
ghost use Rattle.au_expr.specs.Resolving as spec;
ghost use Rattle.au_expr.specs.Descent.{column_of_meant};

use crate::Placed;
use crate::lookup::{Meant, columns_meant};
use au_base::{Boxed, Column, List, Memory, Name, Text};
use sql_ast::{Attribute, Expr};
use std::alloc::Global;

/// The expression with the places of its columns. A column whose name doesn't mean one column is
/// NULL.
#[cycle(place)]
pub fn place(alloc: Global, expr: &Expr, ranges: &[(Name, List<Column>)]) -> Result<Placed, Memory>
    ensures { IfOk result (λ tree. tree ≡ placed ranges.now expr.now) }
{
    match expr {
        Expr::Or(parts) => Ok(Placed::Or(place_all(alloc, parts.as_slice(), ranges)?)),
        Expr::And(parts) => Ok(Placed::And(place_all(alloc, parts.as_slice(), ranges)?)),
        Expr::Not(part) => Ok(Placed::Not(boxed(alloc, part.get(), ranges)?)),
        Expr::Compare(asked, a, b) => {
            let a = boxed(alloc, a.get(), ranges)?;
            let b = boxed(alloc, b.get(), ranges)?;
            Ok(Placed::Compare(*asked, a, b))
        }
        Expr::IsNull(part, negated) => Ok(Placed::IsNull(
            boxed(alloc, part.get(), ranges)?,
            *negated,
        )),
        Expr::Like(text, pattern, negated) => {
            let text = boxed(alloc, text.get(), ranges)?;
            let pattern = boxed(alloc, pattern.get(), ranges)?;
            Ok(Placed::Like(text, pattern, *negated))
        }
        Expr::In(part, choices, negated) => {
            let part = boxed(alloc, part.get(), ranges)?;
            let choices = place_all(alloc, choices.as_slice(), ranges)?;
            Ok(Placed::In(part, choices, *negated))
        }
        Expr::Between(part, low, high, negated) => {
            let part = boxed(alloc, part.get(), ranges)?;
            let low = boxed(alloc, low.get(), ranges)?;
            let high = boxed(alloc, high.get(), ranges)?;
            Ok(Placed::Between(part, low, high, *negated))
        }
        Expr::Sum(parts) => Ok(Placed::Sum(place_summands(alloc, parts.as_slice(), ranges)?)),
        Expr::Product(parts) => Ok(Placed::Product(place_all(alloc, parts.as_slice(), ranges)?)),
        Expr::Negate(part) => Ok(Placed::Negate(boxed(alloc, part.get(), ranges)?)),
        Expr::Number(number) => Ok(Placed::Number(*number)),
        Expr::Literal(text) => Ok(Placed::Literal(text.clone()?)),
        Expr::Null => Ok(Placed::Null),
        Expr::Column(written, name) => Ok(place_column(columns_meant(ranges, written, name))),
        Expr::User => Ok(Placed::User),
        Expr::Now => Ok(Placed::Now),
        Expr::Moment(moment) => Ok(Placed::Moment(*moment)),
        Expr::Context(attribute) => Ok(place_context(attribute)),
    }
}

fn place_column(meant: Meant) -> Placed
    ensures { result ≡ column_of_meant meant }
{
    match meant {
        Meant::One(place) => Placed::Column(place),
        _ => Placed::Null,
    }
}

fn place_context(attribute: &Text) -> Placed
    ensures { result ≡ spec.context_at attribute.now }
{
    if attribute.as_str() == Attribute::SessionId.name() {
        return Placed::SessionNumber;
    }
    if attribute.as_str() == Attribute::SessionUser.name() {
        return Placed::User;
    }
    Placed::Null
}

#[cycle(place)]
fn boxed(
    alloc: Global,
    expr: &Expr,
    ranges: &[(Name, List<Column>)],
) -> Result<Boxed<Placed>, Memory>
    ensures { IfOk result (λ tree. tree ≡ placed ranges.now expr.now) }
{
    let tree = place(alloc, expr, ranges)?;
    let boxed = Boxed::new(alloc, tree)?;
    Ok(boxed)
}

#[cycle(place)]
fn place_all(
    alloc: Global,
    parts: &[Expr],
    ranges: &[(Name, List<Column>)],
) -> Result<List<Placed>, Memory>
    ensures { IfOk result (λ trees. trees ≡ all_placed ranges.now parts.now) }
{
    let mut trees = List::new(alloc);
    for part in parts {
        let tree = place(alloc, part, ranges)?;
        trees.push(tree)?;
    }
    Ok(trees)
}

#[cycle(place)]
fn place_summands(
    alloc: Global,
    parts: &[(bool, Expr)],
    ranges: &[(Name, List<Column>)],
) -> Result<List<(bool, Placed)>, Memory>
    ensures { IfOk result (λ trees. trees ≡ all_signed_placed ranges.now parts.now) }
{
    let mut trees = List::new(alloc);
    for (minus, part) in parts {
        let tree = place(alloc, part, ranges)?;
        trees.push((*minus, tree))?;
    }
    Ok(trees)
}
