//! Names of several words.
ghost use Rattle.std.specs.Option.{option_map};
ghost use Rattle.std.specs.Prelude.{◌≡◌};
ghost use Rattle.sql_parse.specs.Privileges.{words};
ghost use Rattle.sql_parse.specs.Symbols.{kinds};
ghost use Rattle.sql_parse_admin.specs.descent.ReadWords as spec;

use sql_lex::{Kind, Token};
use sql_parse::cursor::expect_word;

// The tokens behind the words of the name, which blanks part. `None` where they don't come next.
#[tactic(auto, using(crate::proofs::WordLaws::not_begun))]
fn past_name<'t>(tokens: &'t [Token], name: &str) -> Option<&'t [Token]>
    ensures { option_map (λ rest. kinds rest.now) result ≡ spec.past_words (words name.now) (kinds tokens.now) }
{
    // Most names that are tried begin with another word, and aren't cut.
    if begins(tokens, name) {
        past_words(tokens, name)
    } else {
        None
    }
}

// Whether the next token is a word with which the name begins.
fn begins(tokens: &[Token], name: &str) -> bool
    ensures { result ≡ spec.begins name.now (kinds tokens.now) }
{
    match tokens {
        [first, ..] => match &first.kind {
            Kind::Word(word) => name.as_bytes().starts_with(word.as_bytes()),
            _ => false,
        },
        [] => false,
    }
}

fn past_words<'t>(tokens: &'t [Token], name: &str) -> Option<&'t [Token]>
    ensures { option_map (λ rest. kinds rest.now) result ≡ spec.past_words (words name.now) (kinds tokens.now) }
{
    match name.split_once(' ') {
        Some((word, others)) => past_words(expect_word(tokens, word.as_bytes())?, others),
        None => expect_word(tokens, name.as_bytes()),
    }
}

/// What is written as a name of several words.
pub trait Named: Copy {
    ghost use Rattle.std.specs.Prelude.{List as Sequence, ℕ};

    ghost name_of: { Self → Sequence ℕ };

    /// Its name.
    fn name(self) -> &'static str
        ensures { result.now ≡ name_of self };
}

/// The first of these whose words come next, and the tokens behind them.
pub fn first_of<'t, T: Named>(mut each: &[T], tokens: &'t [Token]) -> Option<(T, &'t [Token])>
    ensures { option_map (λ x. (x.0, kinds x.1.now)) result ≡ spec.first_of (λ x. words (T.name_of x)) each.entry.now (kinds tokens.now) }
{
    while let [found, others @ ..] = each {
        if let Some(rest) = past_name(tokens, found.name()) {
            return Some((*found, rest));
        }
        each = others;
    }
    None
}
