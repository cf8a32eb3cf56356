//! Marks.
ghost use Rattle.std.specs.Prelude.{◌≡◌, Some, None, MatchOption};
ghost use Rattle.sql_lex.specs.descent.Scan as spec;

use crate::run::{begins_with, behind};
use crate::token::{Kind, Mark};

/// The longest mark of a byte and those behind it, and what stands behind the mark. `--` begins a
/// comment and is none.
#[tactic(auto, unfolding(crate::specs::descent::Scan::mark_at))]
pub fn mark_at(first: u8, rest: &[u8]) -> Option<(Kind, &[u8])>
    ensures { MatchOption result (spec.mark_at first rest.now ≡ None) (λ x. spec.mark_at first rest.now ≡ Some (x.0, x.1.now)) }
{
    if first == b'-' && begins_with(b'-', rest) {
        return None;
    }
    match double_at(first, rest) {
        Some(mark) => Some((Kind::Mark(mark), behind(rest))),
        None => match single_mark(first) {
            Some(mark) => Some((Kind::Mark(mark), rest)),
            None => None,
        },
    }
}

fn double_at(first: u8, rest: &[u8]) -> Option<Mark>
    ensures { result ≡ spec.double_at first rest.now }
{
    match rest {
        [second, ..] => double_mark(first, *second),
        [] => None,
    }
}

#[tactic(auto, unfolding(crate::specs::descent::Scan::double_mark))]
fn double_mark(first: u8, second: u8) -> Option<Mark>
    ensures { result ≡ spec.double_mark first second }
{
    match (first, second) {
        (b'<', b'>') => Some(Mark::LessGreater),
        (b'!', b'=') => Some(Mark::NotEqual),
        (b'<', b'=') => Some(Mark::LessEqual),
        (b'>', b'=') => Some(Mark::GreaterEqual),
        (b'=', b'>') => Some(Mark::Arrow),
        _ => None,
    }
}

#[tactic(auto, unfolding(crate::specs::descent::Scan::single_mark))]
fn single_mark(byte: u8) -> Option<Mark>
    ensures { result ≡ spec.single_mark byte }
{
    match byte {
        b'(' => Some(Mark::OpenParenthesis),
        b')' => Some(Mark::CloseParenthesis),
        b',' => Some(Mark::Comma),
        b'.' => Some(Mark::Period),
        b';' => Some(Mark::Semicolon),
        b'*' => Some(Mark::Asterisk),
        b'+' => Some(Mark::Plus),
        b'-' => Some(Mark::Minus),
        b'=' => Some(Mark::Equal),
        b'<' => Some(Mark::Less),
        b'>' => Some(Mark::Greater),
        _ => None,
    }
}
