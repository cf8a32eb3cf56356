//! What parts tokens: blanks and comments.
ghost use Rattle.std.specs.Prelude.{◌≡◌, ◌+◌, Some, None, MatchOption, IfSome, ◌≤◌, length};
ghost use Rattle.sql_lex.specs.descent.Scan as spec;
ghost use Rattle.sql_lex.specs.Tokens.{StartsGap, StartsNoGap};

use crate::run::{begins_with, behind, is_blank, is_utf8, split_line};

/// What stands behind the blank or comment that the bytes begin with, if they begin with one.
pub fn past_gap(bytes: &[u8]) -> Option<&[u8]>
    ensures { MatchOption result (StartsNoGap bytes.now) (λ rest. StartsGap bytes.now rest.now) }
{
    match gap(bytes) {
        Some(rest) => Some(rest),
        None => None,
    }
}

#[tactic(auto, unfolding(crate::specs::descent::Scan::gap))]
fn gap(bytes: &[u8]) -> Option<&[u8]>
    ensures { MatchOption result (spec.gap bytes.now ≡ None) (λ rest. spec.gap bytes.now ≡ Some rest.now) }
{
    let [first, rest @ ..] = bytes else {
        return None;
    };
    if is_blank(*first) {
        Some(rest)
    } else if *first == b'-' && begins_with(b'-', rest) {
        line(behind(rest))
    } else if *first == b'/' && begins_with(b'*', rest) {
        block(behind(rest))
    } else {
        None
    }
}

// What stands behind a comment whose `--` came before.
#[tactic(auto, unfolding(crate::specs::descent::Scan::line))]
fn line(bytes: &[u8]) -> Option<&[u8]>
    ensures { MatchOption result (spec.line bytes.now ≡ None) (λ rest. spec.line bytes.now ≡ Some rest.now) }
{
    let (comment, rest) = split_line(bytes);
    if is_utf8(comment) { Some(rest) } else { None }
}

// What stands behind a comment whose `/*` came before.
#[tactic(auto, unfolding(crate::specs::descent::Scan::block))]
fn block(bytes: &[u8]) -> Option<&[u8]>
    ensures { MatchOption result (spec.block bytes.now ≡ None) (λ rest. spec.block bytes.now ≡ Some rest.now) }
{
    let len = match comment_len(bytes) {
        Some(len) => len,
        None => return None,
    };
    let comment = bytes.split_at(len).0;
    if is_utf8(comment) {
        Some(bytes.split_at(len + 2).1)
    } else {
        None
    }
}

// How many bytes stand before the first `*/`.
#[tactic(auto, unfolding(crate::specs::descent::Scan::comment_len))]
fn comment_len(bytes: &[u8]) -> Option<usize>
    ensures value { result ≡ spec.comment_len 0 bytes.now }
    ensures inside { IfSome result (λ len. len + 2 ≤ length bytes.now) }
{
    let mut rest = bytes;
    let mut len = 0;
    while let [first, tail @ ..] = rest {
        if *first == b'*' && begins_with(b'/', tail) {
            return Some(len);
        }
        len += 1;
        rest = tail;
    }
    None
}
