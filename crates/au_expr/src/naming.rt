//! The first name of an expression that doesn't mean one column.
ghost use Rattle.std.specs.Prelude.{◌≡◌, map};
ghost use Rattle.au_expr.specs.Descent.{codes_in_sum};
ghost use Rattle.au_expr.specs.Names as spec;
ghost use Rattle.au_expr.specs.Names.{first, or_code};

use crate::lookup::columns_meant;
use au_base::{Code, Column, List, Name};
use sql_ast::Expr;

/// The code of the first column, in written order, whose name doesn't mean one column: 904 where it
/// means none, 918 where it means more than one.
#[cycle(name_code)]
pub fn name_code(expr: &Expr, ranges: &[(Name, List<Column>)]) -> Option<Code>
    ensures { result ≡ spec.name_code ranges.now expr.now }
{
    match expr {
        Expr::Or(parts) => first_code(parts.as_slice(), ranges),
        Expr::And(parts) => first_code(parts.as_slice(), ranges),
        Expr::Not(part) => name_code(part.get(), ranges),
        Expr::Compare(_, a, b) => first_of(name_code(a.get(), ranges), name_code(b.get(), ranges)),
        Expr::IsNull(part, _) => name_code(part.get(), ranges),
        Expr::Like(text, pattern, _) => first_of(
            name_code(text.get(), ranges),
            name_code(pattern.get(), ranges),
        ),
        Expr::In(part, choices, _) => first_of(
            name_code(part.get(), ranges),
            first_code(choices.as_slice(), ranges),
        ),
        Expr::Between(part, low, high, _) => {
            let part = name_code(part.get(), ranges);
            let low = name_code(low.get(), ranges);
            let high = name_code(high.get(), ranges);
            first_of(part, first_of(low, high))
        }
        Expr::Sum(parts) => first_code_in_sum(parts.as_slice(), ranges),
        Expr::Product(parts) => first_code(parts.as_slice(), ranges),
        Expr::Negate(part) => name_code(part.get(), ranges),
        Expr::Column(written, name) => columns_meant(ranges, written, name).code(),
        _ => None,
    }
}

/// The earlier code, or else the later one.
pub fn first_of(earlier: Option<Code>, later: Option<Code>) -> Option<Code>
    ensures { result ≡ or_code earlier later }
{
    match earlier {
        Some(code) => Some(code),
        None => later,
    }
}

#[cycle(name_code)]
fn first_code(parts: &[Expr], ranges: &[(Name, List<Column>)]) -> Option<Code>
    ensures { result ≡ first (map (spec.name_code ranges.now) parts.now) }
{
    for part in parts {
        if let Some(code) = name_code(part, ranges) {
            return Some(code);
        }
    }
    None
}

#[cycle(name_code)]
fn first_code_in_sum(parts: &[(bool, Expr)], ranges: &[(Name, List<Column>)]) -> Option<Code>
    ensures { result ≡ first (codes_in_sum ranges.now parts.now) }
{
    for (_, part) in parts {
        if let Some(code) = name_code(part, ranges) {
            return Some(code);
        }
    }
    None
}
