//! Text literals.
ghost use Rattle.std.specs.Option.{option_map};
ghost use Rattle.std.specs.Prelude.{◌≡◌};
ghost use Rattle.sql_parse.specs.Symbols.{kinds};
ghost use Rattle.sql_parse.specs.descent.MomentReading.{moment_read};
ghost use Rattle.sql_parse.specs.descent.Reading as spec;

use au_base::{Text, read_moment};
use sql_lex::{Kind, Token};

/// The text literal that comes next.
#[tactic(auto, unfolding(crate::specs::descent::Reading::literal))]
pub fn literal(tokens: &[Token]) -> Option<(&Text, &[Token])>
    ensures { option_map (λ x. (x.0.now, kinds x.1.now)) result ≡ spec.literal (kinds tokens.now) }
{
    match tokens {
        [first, rest @ ..] => match &first.kind {
            Kind::Text(text) => Some((text, rest)),
            _ => None,
        },
        [] => None,
    }
}

/// The moment that a text tells, as `1970-01-01 00:00:00` with six digits behind a point or with
/// none, in microseconds since 1970.
pub fn moment_of(text: &Text) -> Option<u64>
    ensures { result ≡ moment_read text.now }
{
    read_moment(text.as_bytes())
}
