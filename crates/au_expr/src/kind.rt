//! Kinds of expressions.
ghost use Rattle.std.specs.Prelude.{◌≡◌, Some};
ghost use Rattle.au_expr.specs.Kinds as spec;

use au_base::ColumnKind;

/// What an expression is (SQL Language Reference, "Oracle Built-in Data Types").
#[derive(Clone, Copy, Debug, PartialEq, Eq)]
pub enum ExprKind {
    /// NULL, which goes with every kind and is an unknown truth.
    Any,
    /// A condition.
    Truth,
    /// A number, a text or a moment.
    Of(ColumnKind),
}

impl ExprKind {
    /// Whether it may stand where a value of this kind has to; NULL goes with each, and a condition
    /// with none.
    pub fn goes_with(self, kind: ColumnKind) -> bool
        ensures { result ≡ spec.goes_with kind (Some self) }
    {
        match self {
            ExprKind::Any => true,
            ExprKind::Truth => false,
            ExprKind::Of(other) => is_same(kind, other),
        }
    }

    /// Whether it may stand where a condition has to; NULL may.
    pub fn is_truth(self) -> bool
        ensures { result ≡ spec.is_truth (Some self) }
    {
        match self {
            ExprKind::Any | ExprKind::Truth => true,
            ExprKind::Of(_) => false,
        }
    }
}

fn is_same(a: ColumnKind, b: ColumnKind) -> bool
    ensures { result ≡ spec.same_kind a b }
{
    match (a, b) {
        (ColumnKind::Number, ColumnKind::Number) => true,
        (ColumnKind::Text, ColumnKind::Text) => true,
        (ColumnKind::Moment, ColumnKind::Moment) => true,
        _ => false,
    }
}
