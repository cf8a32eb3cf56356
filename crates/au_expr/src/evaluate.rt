//! What expressions give over a row.
ghost use Rattle.std.specs.Prelude.{◌≡◌, ◌≢◌, IfOk};
ghost use Rattle.au_expr.specs.Descent.{told};
ghost use Rattle.au_expr.specs.Kinds.{kind_at};
ghost use Rattle.au_expr.specs.Operators.{and_value, in_value, or_value, product_value, sum_value};
ghost use Rattle.au_expr.specs.Placing as spec;
ghost use Rattle.au_expr.specs.Placing.{signed_values_at, value_at, values_at};
ghost use Rattle.au_expr.specs.Values.{GivesCell, GivesTruth, Is, is_overflow};

use crate::found::Found;
use crate::{ExprKind, Place, Placed, Resolved, Row, SessionFacts};
use au_base::{Cell, Code, Memory, Truth};
use sql_ast::Relation;

/// The cell that an expression gives over a row. The code is 1426, exactly where it overflows; a
/// text is copied.
pub fn value(
    expr: &Resolved,
    row: &Row<'_>,
    session: &SessionFacts,
) -> Result<Result<Cell, Code>, Memory>
    requires { kind_at expr.now ≢ ExprKind.Truth }
    ensures { IfOk result (λ found. GivesCell found (value_at row.now session.now expr.now)) }
{
    evaluate(expr.tree(), row, session).into_cell()
}

/// The truth that a condition gives over a row; what is no condition, such as NULL, is unknown. The
/// code is 1426, exactly where it overflows. It takes no memory.
pub fn truth(expr: &Resolved, row: &Row<'_>, session: &SessionFacts) -> Result<Truth, Code>
    ensures { GivesTruth result (value_at row.now session.now expr.now) }
{
    truth_at(expr.tree(), row, session)
}

/// As `truth`, of a tree, such as a part of a condition.
pub fn truth_at(tree: &Placed, row: &Row<'_>, session: &SessionFacts) -> Result<Truth, Code>
    ensures { GivesTruth result (value_at row.now session.now tree.now) }
{
    evaluate(tree, row, session).into_truth()
}

/// Whether a tree overflows over a row. It takes no memory.
pub fn overflows_at(tree: &Placed, row: &Row<'_>, session: &SessionFacts) -> bool
    ensures { result ≡ is_overflow (value_at row.now session.now tree.now) }
{
    evaluate(tree, row, session).is_overflow()
}

#[cycle(evaluate)]
fn evaluate<'a>(tree: &'a Placed, row: &Row<'a>, session: &'a SessionFacts) -> Found<'a>
    ensures { told result ≡ value_at row.now session.now tree.now }
{
    match tree {
        Placed::Or(parts) => any_of(parts.as_slice(), row, session),
        Placed::And(parts) => all_of(parts.as_slice(), row, session),
        Placed::Not(part) => evaluate(part.get(), row, session).not(),
        Placed::Compare(asked, a, b) => {
            let a = evaluate(a.get(), row, session);
            let b = evaluate(b.get(), row, session);
            a.compared(*asked, b)
        }
        Placed::IsNull(part, negated) => evaluate(part.get(), row, session).is_null(*negated),
        Placed::Like(text, pattern, negated) => {
            let text = evaluate(text.get(), row, session);
            let pattern = evaluate(pattern.get(), row, session);
            text.like(*negated, pattern)
        }
        Placed::In(part, choices, negated) => {
            let part = evaluate(part.get(), row, session);
            among(part, choices.as_slice(), *negated, row, session)
        }
        Placed::Between(part, low, high, negated) => {
            let part = evaluate(part.get(), row, session);
            let low = evaluate(low.get(), row, session);
            let high = evaluate(high.get(), row, session);
            part.between(*negated, low, high)
        }
        Placed::Sum(parts) => sum_of(parts.as_slice(), row, session),
        Placed::Product(parts) => product_of(parts.as_slice(), row, session),
        Placed::Negate(part) => Found::Num(0).added(true, evaluate(part.get(), row, session)),
        Placed::Number(number) => Found::Num(*number),
        Placed::Literal(text) => Found::of_text(text),
        Placed::Null => Found::Null,
        Placed::Column(place) => cell_at(row, *place),
        Placed::User => Found::Text(session.user().as_text()),
        Placed::SessionNumber => Found::Text(session.digits()),
        Placed::Now => Found::Moment(session.stamp().0),
        Placed::Moment(moment) => Found::Moment(*moment),
    }
}

fn cell_at<'a>(row: &Row<'a>, place: Place) -> Found<'a>
    ensures { told result ≡ Is (spec.cell_at row.now place) }
{
    match row.get(place.range) {
        Some(cells) => match cells.get(place.column) {
            Some(cell) => Found::of_cell(cell),
            None => Found::Null,
        },
        None => Found::Null,
    }
}

#[cycle(evaluate)]
fn all_of<'a>(parts: &'a [Placed], row: &Row<'a>, session: &'a SessionFacts) -> Found<'a>
    ensures { told result ≡ and_value (values_at row.now session.now parts.now) }
{
    let mut found = Found::Truth(Truth::Yes);
    for part in parts {
        found = found.and(evaluate(part, row, session));
    }
    found
}

#[cycle(evaluate)]
fn any_of<'a>(parts: &'a [Placed], row: &Row<'a>, session: &'a SessionFacts) -> Found<'a>
    ensures { told result ≡ or_value (values_at row.now session.now parts.now) }
{
    let mut found = Found::Truth(Truth::No);
    for part in parts {
        found = found.or(evaluate(part, row, session));
    }
    found
}

// The test IN: the OR of the equalities.
#[cycle(evaluate)]
fn among<'a>(
    wanted: Found<'a>,
    choices: &'a [Placed],
    negated: bool,
    row: &Row<'a>,
    session: &'a SessionFacts,
) -> Found<'a>
    ensures { told result ≡ in_value negated (told wanted.entry) (values_at row.now session.now choices.now) }
{
    let mut found = wanted.no_if_known();
    for choice in choices {
        found = found.or(wanted.compared(Relation::Equal, evaluate(choice, row, session)));
    }
    found.turned(negated)
}

#[cycle(evaluate)]
fn sum_of<'a>(parts: &'a [(bool, Placed)], row: &Row<'a>, session: &'a SessionFacts) -> Found<'a>
    ensures { told result ≡ sum_value (signed_values_at row.now session.now parts.now) }
{
    let mut found = Found::Num(0);
    for (minus, part) in parts {
        found = found.added(*minus, evaluate(part, row, session));
    }
    found
}

#[cycle(evaluate)]
fn product_of<'a>(parts: &'a [Placed], row: &Row<'a>, session: &'a SessionFacts) -> Found<'a>
    ensures { told result ≡ product_value (values_at row.now session.now parts.now) }
{
    let mut found = Found::Num(1);
    for part in parts {
        found = found.multiplied(evaluate(part, row, session));
    }
    found
}
