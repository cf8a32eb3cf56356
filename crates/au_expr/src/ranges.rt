//! Which columns an expression names.
ghost use Rattle.std.specs.Prelude.{◌≡◌, map};
ghost use Rattle.au_expr.specs.Descent as spec;
ghost use Rattle.au_expr.specs.Descent.{names_in_sum};
ghost use Rattle.au_expr.specs.Overflows.{any_holds};
ghost use Rattle.au_expr.specs.Ranges as ranges;

use crate::{Place, Placed};

/// What is asked for, by numbers from 0.
#[derive(Clone, Copy)]
pub enum Asked {
    /// Any column of a range.
    Range(usize),
    /// A column of a range.
    Column(usize, usize),
}

fn is_asked(asked: Asked, place: &Place) -> bool
    ensures { result ≡ spec.is_asked asked place.now }
{
    match asked {
        Asked::Range(range) => place.range == range,
        Asked::Column(range, column) => place.range == range && place.column == column,
    }
}

/// As `Resolved::names_range`, of a tree, such as a part of a condition. It takes no memory.
pub fn names_range(tree: &Placed, range: usize) -> bool
    ensures { result ≡ ranges.names_range range tree.now }
{
    names(tree, Asked::Range(range))
}

/// Whether a column of the expression is asked for.
#[cycle(names)]
pub fn names(tree: &Placed, asked: Asked) -> bool
    ensures { result ≡ spec.names asked tree.now }
{
    match tree {
        Placed::Or(parts) => some_names(parts.as_slice(), asked),
        Placed::And(parts) => some_names(parts.as_slice(), asked),
        Placed::Not(part) => names(part.get(), asked),
        Placed::Compare(_, a, b) => names(a.get(), asked) || names(b.get(), asked),
        Placed::IsNull(part, _) => names(part.get(), asked),
        Placed::Like(text, pattern, _) => names(text.get(), asked) || names(pattern.get(), asked),
        Placed::In(part, choices, _) => names(part.get(), asked)
            || some_names(choices.as_slice(), asked),
        Placed::Between(part, low, high, _) => names(part.get(), asked)
            || names(low.get(), asked)
            || names(high.get(), asked),
        Placed::Sum(parts) => some_summand_names(parts.as_slice(), asked),
        Placed::Product(parts) => some_names(parts.as_slice(), asked),
        Placed::Negate(part) => names(part.get(), asked),
        Placed::Column(place) => is_asked(asked, place),
        _ => false,
    }
}

#[cycle(names)]
fn some_names(parts: &[Placed], asked: Asked) -> bool
    ensures { result ≡ any_holds (map (spec.names asked) parts.now) }
{
    for part in parts {
        if names(part, asked) {
            return true;
        }
    }
    false
}

#[cycle(names)]
fn some_summand_names(parts: &[(bool, Placed)], asked: Asked) -> bool
    ensures { result ≡ any_holds (names_in_sum asked parts.now) }
{
    for (_, part) in parts {
        if names(part, asked) {
            return true;
        }
    }
    false
}
