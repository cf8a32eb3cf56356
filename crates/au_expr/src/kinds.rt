//! The kinds of expressions whose columns are names.
ghost use Rattle.std.specs.Prelude.{◌≡◌, ◌∷◌, [], None, Some, if◌then◌else◌, map};
ghost use Rattle.std.specs.List.{list_all};
ghost use Rattle.au_expr.specs.Descent.{kinds_in_sum};
ghost use Rattle.au_base.specs.declared.table.ColumnKind.TheVariants as columns;
ghost use Rattle.au_expr.specs.Kinds as spec;
ghost use Rattle.au_expr.specs.Kinds.{is_one_kind};
ghost use Rattle.au_base.specs.Codes.{WRONG_KIND};
ghost use Rattle.au_expr.specs.Resolving as resolving;
ghost use Rattle.au_expr.specs.Resolving.{HasKind};

use crate::ExprKind;
use crate::agreed::{Agreed, are_all_one_kind, are_one_kind, goes_with};
use crate::lookup::columns_meant;
use crate::naming::{first_of, name_code};
use au_base::{Code, Column, ColumnKind, List, Name, Text};
use sql_ast::{Attribute, Expr};

/// The kind of an expression over some ranges. The code is the first of 904 and 918 in written
/// order, and where there is neither, 932 exactly where some part is of a wrong kind. It takes no
/// memory.
pub fn kind_over(expr: &Expr, ranges: &[(Name, List<Column>)]) -> Result<ExprKind, Code>
    ensures { HasKind ranges.now expr.now result }
{
    if let Some(code) = name_code(expr, ranges) {
        return Err(code);
    }
    match kind_in(expr, ranges) {
        Some(kind) => Ok(kind),
        None => Err(Code::WRONG_KIND),
    }
}

/// The code of what has to be a condition, as ON, WHERE and a policy's condition: as of `kind_over`,
/// and 932 for what is no truth. It takes no memory.
pub fn condition_code(expr: &Expr, ranges: &[(Name, List<Column>)]) -> Option<Code>
    ensures { result ≡ resolving.condition_code ranges.now expr.now }
{
    let name_code = name_code(expr, ranges);
    first_of(
        name_code,
        wrong_kind_unless(is_truth(kind_in(expr, ranges))),
    )
}

/// The code of what has to be a value, of the wanted kind if there is one, as an item, or an inserted
/// or a set value: as of `kind_over`, and 932 for a truth and for another kind. It takes no memory.
pub fn value_code(
    expr: &Expr,
    ranges: &[(Name, List<Column>)],
    wanted: Option<ColumnKind>,
) -> Option<Code>
    ensures { result ≡ resolving.value_code wanted ranges.now expr.now }
{
    let name_code = name_code(expr, ranges);
    first_of(
        name_code,
        wrong_kind_unless(is_value(wanted, kind_in(expr, ranges))),
    )
}

fn wrong_kind_unless(holds: bool) -> Option<Code>
    ensures { result ≡ (if holds then None else Some WRONG_KIND) }
{
    if holds { None } else { Some(Code::WRONG_KIND) }
}

fn is_value(wanted: Option<ColumnKind>, kind: Option<ExprKind>) -> bool
    ensures { result ≡ resolving.is_value wanted kind }
{
    match wanted {
        None => has_one_kind(kind),
        Some(wanted) => goes_with(wanted, kind),
    }
}

// The kind, and nothing where some part is of a wrong kind.
#[cycle(kind_in)]
fn kind_in(expr: &Expr, ranges: &[(Name, List<Column>)]) -> Option<ExprKind>
    ensures { result ≡ spec.kind ranges.now expr.now }
{
    match expr {
        Expr::Or(parts) => truth_where(are_truths(parts.as_slice(), ranges)),
        Expr::And(parts) => truth_where(are_truths(parts.as_slice(), ranges)),
        Expr::Not(part) => truth_where(is_truth(kind_in(part.get(), ranges))),
        Expr::Compare(_, a, b) => {
            let a = kind_in(a.get(), ranges);
            let b = kind_in(b.get(), ranges);
            truth_where(are_one_kind(a, b))
        }
        Expr::IsNull(part, _) => truth_where(has_one_kind(kind_in(part.get(), ranges))),
        Expr::Like(text, pattern, _) => {
            let text = kind_in(text.get(), ranges);
            let pattern = kind_in(pattern.get(), ranges);
            truth_where(are_both(ColumnKind::Text, text, pattern))
        }
        Expr::In(part, choices, _) => {
            let part = kind_in(part.get(), ranges);
            truth_where(agrees_with_all(part, choices.as_slice(), ranges))
        }
        Expr::Between(part, low, high, _) => {
            let part = kind_in(part.get(), ranges);
            let low = kind_in(low.get(), ranges);
            let high = kind_in(high.get(), ranges);
            truth_where(are_all_one_kind(part, low, high))
        }
        Expr::Sum(parts) => number_where(are_summands(parts.as_slice(), ranges)),
        Expr::Product(parts) => number_where(are_numbers(parts.as_slice(), ranges)),
        Expr::Negate(part) => number_where(is_number(kind_in(part.get(), ranges))),
        Expr::Number(_) => Some(ExprKind::Of(ColumnKind::Number)),
        Expr::Null => Some(ExprKind::Any),
        Expr::Column(written, name) => columns_meant(ranges, written, name).kind(),
        Expr::Literal(_) | Expr::User => Some(ExprKind::Of(ColumnKind::Text)),
        Expr::Context(attribute) => Some(kind_of_context(attribute)),
        Expr::Now | Expr::Moment(_) => Some(ExprKind::Of(ColumnKind::Moment)),
    }
}

fn kind_of_context(attribute: &Text) -> ExprKind
    ensures { result ≡ spec.kind_of_context attribute.now }
{
    if attribute.as_str() == Attribute::SessionId.name() {
        return ExprKind::Of(ColumnKind::Text);
    }
    if attribute.as_str() == Attribute::SessionUser.name() {
        return ExprKind::Of(ColumnKind::Text);
    }
    ExprKind::Any
}

fn truth_where(holds: bool) -> Option<ExprKind>
    ensures { result ≡ spec.given_where ExprKind.Truth holds }
{
    given_where(ExprKind::Truth, holds)
}

fn number_where(holds: bool) -> Option<ExprKind>
    ensures { result ≡ spec.given_where (ExprKind.Of ColumnKind.Number) holds }
{
    given_where(ExprKind::Of(ColumnKind::Number), holds)
}

fn given_where(kind: ExprKind, holds: bool) -> Option<ExprKind>
    ensures { result ≡ spec.given_where kind holds }
{
    holds.then_some(kind)
}

fn is_truth(kind: Option<ExprKind>) -> bool
    ensures { result ≡ spec.is_truth kind }
{
    match kind {
        Some(kind) => kind.is_truth(),
        None => false,
    }
}

fn is_number(kind: Option<ExprKind>) -> bool
    ensures { result ≡ spec.goes_with columns.Number kind }
{
    goes_with(ColumnKind::Number, kind)
}

fn has_one_kind(kind: Option<ExprKind>) -> bool
    ensures { result ≡ is_one_kind (kind ∷ []) }
{
    Agreed::everything().with(kind).is_some()
}

fn are_both(kind: ColumnKind, a: Option<ExprKind>, b: Option<ExprKind>) -> bool
    ensures { result ≡ list_all (spec.goes_with kind) (a ∷ b ∷ []) }
{
    goes_with(kind, a) && goes_with(kind, b)
}

#[cycle(kind_in)]
fn are_truths(parts: &[Expr], ranges: &[(Name, List<Column>)]) -> bool
    ensures { result ≡ list_all spec.is_truth (map (spec.kind ranges.now) parts.now) }
{
    for part in parts {
        if !is_truth(kind_in(part, ranges)) {
            return false;
        }
    }
    true
}

#[cycle(kind_in)]
fn are_numbers(parts: &[Expr], ranges: &[(Name, List<Column>)]) -> bool
    ensures { result ≡ list_all (spec.goes_with columns.Number) (map (spec.kind ranges.now) parts.now) }
{
    for part in parts {
        if !is_number(kind_in(part, ranges)) {
            return false;
        }
    }
    true
}

#[cycle(kind_in)]
fn are_summands(parts: &[(bool, Expr)], ranges: &[(Name, List<Column>)]) -> bool
    ensures { result ≡ list_all (spec.goes_with columns.Number) (kinds_in_sum ranges.now parts.now) }
{
    for (_, part) in parts {
        if !is_number(kind_in(part, ranges)) {
            return false;
        }
    }
    true
}

// Whether the first and all others are of one kind.
#[cycle(kind_in)]
fn agrees_with_all(
    first: Option<ExprKind>,
    others: &[Expr],
    ranges: &[(Name, List<Column>)],
) -> bool
    ensures { result ≡ is_one_kind (first ∷ map (spec.kind ranges.now) others.now) }
{
    let mut agreed = Agreed::everything().with(first);
    for other in others {
        agreed = agreed.with(kind_in(other, ranges));
    }
    agreed.is_some()
}
