//! Whether an expression can overflow.
ghost use Rattle.std.specs.Prelude.{◌≡◌, map};
ghost use Rattle.au_expr.specs.Operators as operators;
ghost use Rattle.au_expr.specs.Overflows as spec;
ghost use Rattle.au_expr.specs.Overflows.{any_holds};

use crate::Placed;
use au_base::LARGEST;

/// Whether the expression holds a sum, a difference or a product, or a number of over 18 digits.
#[cycle(can_overflow)]
pub fn can_overflow(tree: &Placed) -> bool
    ensures { result ≡ spec.can_overflow tree.now }
{
    match tree {
        Placed::Or(parts) => some_can(parts.as_slice()),
        Placed::And(parts) => some_can(parts.as_slice()),
        Placed::Not(part) => can_overflow(part.get()),
        Placed::Compare(_, a, b) => can_overflow(a.get()) || can_overflow(b.get()),
        Placed::IsNull(part, _) => can_overflow(part.get()),
        Placed::Like(text, pattern, _) => can_overflow(text.get()) || can_overflow(pattern.get()),
        Placed::In(part, choices, _) => can_overflow(part.get()) || some_can(choices.as_slice()),
        Placed::Between(part, low, high, _) => can_overflow(part.get())
            || can_overflow(low.get())
            || can_overflow(high.get()),
        Placed::Sum(_) | Placed::Product(_) => true,
        Placed::Negate(part) => can_overflow(part.get()),
        Placed::Number(number) => !has_digits(*number),
        _ => false,
    }
}

// Whether the number has at most 18 digits.
fn has_digits(number: i64) -> bool
    ensures { result ≡ operators.has_digits number }
{
    -LARGEST <= number && number <= LARGEST
}

#[cycle(can_overflow)]
fn some_can(parts: &[Placed]) -> bool
    ensures { result ≡ any_holds (map spec.can_overflow parts.now) }
{
    for part in parts {
        if can_overflow(part) {
            return true;
        }
    }
    false
}
