//! Conditions of policies.
ghost use Rattle.std.specs.Prelude.{◌≡◌, map};
ghost use Rattle.std.specs.List.{list_all};
ghost use Rattle.au_expr.specs.Conditions as spec;
ghost use Rattle.au_expr.specs.Conditions.{is_plain};
ghost use Rattle.au_expr.specs.Descent.{told_plainness};

use sql_ast::Expr;

/// How plain a tree is.
#[derive(Clone, Copy)]
enum Plainness {
    /// A number.
    Digits,
    /// Another tree that a condition may hold.
    Plain,
    /// One that it may not.
    Refused,
}

/// Whether a policy may have this condition: it holds no `+` and no `*`, and `-` only as a sign
/// before a number. The tree is tested, so `-(5)` passes. It takes no memory.
pub fn is_plain_condition(expr: &Expr) -> bool
    ensures { result ≡ is_plain expr.now }
{
    may_stand(plainness_of(expr))
}

fn may_stand(part: Plainness) -> bool
    ensures { result ≡ spec.may_stand (told_plainness part) }
{
    match part {
        Plainness::Digits | Plainness::Plain => true,
        Plainness::Refused => false,
    }
}

fn plain_where(holds: bool) -> Plainness
    ensures { told_plainness result ≡ spec.plain_where holds }
{
    if holds {
        Plainness::Plain
    } else {
        Plainness::Refused
    }
}

fn signed(part: Plainness) -> Plainness
    ensures { told_plainness result ≡ spec.signed (told_plainness part) }
{
    match part {
        Plainness::Digits => Plainness::Plain,
        _ => Plainness::Refused,
    }
}

#[cycle(plainness_of)]
fn plainness_of(expr: &Expr) -> Plainness
    ensures { told_plainness result ≡ spec.plainness expr.now }
{
    match expr {
        Expr::Or(parts) => plain_where(may_all_stand(parts.as_slice())),
        Expr::And(parts) => plain_where(may_all_stand(parts.as_slice())),
        Expr::Not(part) => plain_where(may_stand(plainness_of(part.get()))),
        Expr::Compare(_, a, b) => {
            let a = may_stand(plainness_of(a.get()));
            let b = may_stand(plainness_of(b.get()));
            plain_where(a && b)
        }
        Expr::IsNull(part, _) => plain_where(may_stand(plainness_of(part.get()))),
        Expr::Like(text, pattern, _) => {
            let text = may_stand(plainness_of(text.get()));
            let pattern = may_stand(plainness_of(pattern.get()));
            plain_where(text && pattern)
        }
        Expr::In(part, choices, _) => {
            let part = may_stand(plainness_of(part.get()));
            let choices = may_all_stand(choices.as_slice());
            plain_where(part && choices)
        }
        Expr::Between(part, low, high, _) => {
            let part = may_stand(plainness_of(part.get()));
            let low = may_stand(plainness_of(low.get()));
            let high = may_stand(plainness_of(high.get()));
            plain_where(part && low && high)
        }
        Expr::Sum(_) | Expr::Product(_) => Plainness::Refused,
        Expr::Negate(part) => signed(plainness_of(part.get())),
        Expr::Number(_) => Plainness::Digits,
        _ => Plainness::Plain,
    }
}

#[cycle(plainness_of)]
fn may_all_stand(parts: &[Expr]) -> bool
    ensures { result ≡ list_all spec.may_stand (map spec.plainness parts.now) }
{
    for part in parts {
        if !may_stand(plainness_of(part)) {
            return false;
        }
    }
    true
}
