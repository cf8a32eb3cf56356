//! Arithmetic of numbers with up to 18 digits.
ghost use Rattle.std.specs.Prelude.{◌+ℤ◌, ◌-ℤ◌, ◌*ℤ◌, ◌↔◌, IsTrue};
ghost use Rattle.au_base.specs.Found.{MakesExactly};
ghost use Rattle.au_base.specs.Numbers.{FitsDigits};

/// The greatest number of 18 digits.
pub const LARGEST: i64 = 999_999_999_999_999_999;

/// The sum. `None` where it has over 18 digits.
pub fn add(a: i64, b: i64) -> Option<i64>
    ensures { MakesExactly (FitsDigits (a +ℤ b)) (a +ℤ b) result }
{
    a.checked_add(b).and_then(within_digits)
}

/// The difference. `None` where it has over 18 digits.
pub fn subtract(a: i64, b: i64) -> Option<i64>
    ensures { MakesExactly (FitsDigits (a -ℤ b)) (a -ℤ b) result }
{
    a.checked_sub(b).and_then(within_digits)
}

/// The product. `None` where it has over 18 digits.
pub fn multiply(a: i64, b: i64) -> Option<i64>
    ensures { MakesExactly (FitsDigits (a *ℤ b)) (a *ℤ b) result }
{
    a.checked_mul(b).and_then(within_digits)
}

fn within_digits(number: i64) -> Option<i64>
    ensures { MakesExactly (FitsDigits number) number result }
{
    fits_digits(number).then_some(number)
}

/// Whether the number has at most 18 digits.
pub fn fits_digits(number: i64) -> bool
    ensures { IsTrue result ↔ FitsDigits number }
{
    -LARGEST <= number && number <= LARGEST
}
