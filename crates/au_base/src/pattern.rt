//! The test LIKE.
ghost use Rattle.std.specs.Prelude.{◌≡◌, ◌≢◌, ◌<◌, ◌↔◌, ◌∷◌, [], IfSome, IsTrue, IsUtf8, MatchOption, length};
ghost use Rattle.std.specs.Str.{chars};
ghost use Rattle.au_base.specs.Fronts.{IsFront, IsLess};
ghost use Rattle.au_base.specs.Likes.{IsLike};

use crate::Text;

/// Whether a text is like a pattern, in which `%` stands for any characters and `_` for one
/// character of UTF-8 (SQL Language Reference, "LIKE Condition"). It takes no memory.
pub fn like(text: &Text, pattern: &Text) -> bool
    ensures { IsTrue result ↔ IsLike (chars pattern.now) (chars text.now) }
{
    match compare_front(text.as_str(), pattern.as_str()) {
        Front::Differs => false,
        Front::Whole => true,
        Front::Percent(end, wanted) => has_end_like(end, wanted),
    }
}

// How the characters of a pattern up to its first `%` stand to a text.
#[derive(Clone, Copy)]
enum Front<'a> {
    // The text isn't like the pattern.
    Differs,
    // There is no `%`, and the text is like the pattern.
    Whole,
    // They name the front of the text. Here are the text behind it and the pattern behind the `%`.
    Percent(&'a str, &'a str),
}

// Whether some end of the text is like the pattern; the text and the empty text are such ends.
fn has_end_like(text: &str, pattern: &str) -> bool
    ensures { IsTrue result ↔ IsLike (37 ∷ chars pattern.now) (chars text.now) }
{
    let mut end = text;
    let mut wanted = pattern;
    loop {
        match compare_front(end, wanted) {
            Front::Whole => return true,
            Front::Percent(later_end, later_wanted) => {
                end = later_end;
                wanted = later_wanted;
            }
            Front::Differs => match split_first(end) {
                Some((_, later_end)) => end = later_end,
                None => return false,
            },
        }
    }
}

fn compare_front<'a>(text: &'a str, pattern: &'a str) -> Front<'a>
    ensures front { IsFront (chars pattern.now) (chars text.now) result }
    ensures less { IsLess pattern.now text.now result }
{
    let mut rest = text;
    let mut names = pattern;
    loop {
        match split_first(names) {
            None if rest.is_empty() => return Front::Whole,
            None => return Front::Differs,
            Some(('%', later_names)) => return Front::Percent(rest, later_names),
            Some((name, later_names)) => match split_first(rest) {
                None => return Front::Differs,
                Some((named, later_rest)) => {
                    if !is_named(name, named) {
                        return Front::Differs;
                    }
                    rest = later_rest;
                    names = later_names;
                }
            },
        }
    }
}

// Whether the character of a pattern, which isn't `%`, names the other.
fn is_named(name: char, named: char) -> bool
    ensures { IsTrue result ↔ (name ≢ 95 → named ≡ name) }
{
    name == '_' || named == name
}

// The first character, and the text behind it.
fn split_first(text: &str) -> Option<(char, &str)>
    ensures cut { MatchOption result (chars text.now ≡ []) (λ cut. chars text.now ≡ cut.0 ∷ chars cut.1.now) }
    ensures less { MatchOption result (text.now ≡ []) (λ cut. length cut.1.now < length text.now) }
    ensures utf8 { IfSome result (λ cut. IsUtf8 cut.1.now) }
{
    let mut rest = text.chars();
    let first = rest.next()?;
    Some((first, rest.as_str()))
}
