//! Texts with commas: columns and kinds of statements.
ghost use Rattle.std.specs.Prelude.{◌≡◌, ◌+◌, ◌-◌, ◌≤◌, ◌==◌, Some, None, IfOk, codes, if◌then◌else◌, length, map};
ghost use Rattle.std.specs.List.{list_all, list_any, prefix_len, slice_split, suffix_len};
ghost use Rattle.std.specs.Str.{bytes_eq};
ghost use Rattle.au_calls.specs.Literals.{column_of, columns_by, columns_in, is_column, is_kind, is_space, is_word, kind_number, kinds_by, kinds_in, kinds_named, pieces, trimmed};
ghost use Rattle.au_base.specs.Naming.{identifier_of};

use crate::literals::name_of;
use crate::once::names_once;
use au_base::{List, Memory, Name, Text};
use std::alloc::{AllocError, Global};

/// The relevant columns by what they are given: none where that is NULL. `None` where they can't be
/// read.
pub fn columns_by(alloc: Global, text: &Option<Option<Text>>) -> Result<Option<List<Name>>, Memory>
    ensures { IfOk result (λ columns. columns ≡ columns_by text.now) }
{
    match text {
        None => Ok(None),
        Some(None) => Ok(Some(List::new(alloc))),
        Some(Some(text)) => columns_in(alloc, text),
    }
}

fn columns_in(alloc: Global, text: &Text) -> Result<Option<List<Name>>, Memory>
    ensures { IfOk result (λ columns. columns ≡ columns_in (pieces text.now)) }
{
    let pieces = pieces_of(alloc, text)?;
    columns_once(alloc, pieces.as_slice())
}

// The columns that the pieces name, each once, where all of them name one.
fn columns_once(alloc: Global, pieces: &[Text]) -> Result<Option<List<Name>>, Memory>
    ensures { IfOk result (λ columns. columns ≡ columns_in pieces.now) }
{
    match columns_of(alloc, pieces)? {
        Some(names) => Ok(Some(names_once(alloc, names.as_slice())?)),
        None => Ok(None),
    }
}

fn columns_of(alloc: Global, pieces: &[Text]) -> Result<Option<List<Name>>, Memory>
    ensures { IfOk result (λ names. names ≡ (if list_all is_column pieces.now then Some (map column_of pieces.now) else None)) }
{
    let mut names = List::new(alloc);
    for piece in pieces {
        match column_of(alloc, piece)? {
            Some(name) => names.push(name)?,
            None => return Ok(None),
        }
    }
    Ok(Some(names))
}

fn column_of(alloc: Global, piece: &Text) -> Result<Option<Name>, Memory>
    ensures { IfOk result (λ name. name ≡ (if is_column piece.now then Some (column_of piece.now) else None)) }
{
    name_of(alloc, trimmed(piece.as_bytes()))
}

fn trimmed(piece: &[u8]) -> &[u8]
    ensures { result.now ≡ trimmed piece.now }
{
    let (_, rest) = piece.split_at(spaces_before(piece));
    let (kept, _) = rest.split_at(end_of(rest));
    kept
}

// How many spaces stand before the piece.
fn spaces_before(piece: &[u8]) -> usize
    ensures count { result ≡ prefix_len is_space piece.now }
    ensures within { result ≤ length piece.now }
{
    let mut n = 0;
    while n < piece.len() && piece[n] == b' ' {
        n += 1;
    }
    n
}

// Where the spaces behind the piece begin.
fn end_of(piece: &[u8]) -> usize
    ensures count { result ≡ length piece.now - suffix_len is_space piece.now }
    ensures within { result ≤ length piece.now }
{
    let mut n = piece.len();
    while n > 0 && piece[n - 1] == b' ' {
        n -= 1;
    }
    n
}

// The pieces of the text between its commas.
fn pieces_of(alloc: Global, text: &Text) -> Result<List<Text>, Memory>
    ensures { IfOk result (λ made. made ≡ pieces text.now) }
{
    let pieces = cut(alloc, text)?;
    let texts = texts_of(alloc, pieces.as_slice())?;
    Ok(texts)
}

fn cut<'a>(alloc: Global, text: &'a Text) -> Result<Vec<&'a str>, AllocError>
    ensures { IfOk result (λ made. map (λ piece. piece.now) made.items ≡ pieces text.now) }
{
    text.as_str().split(',').collect(alloc)
}

fn texts_of(alloc: Global, pieces: &[&str]) -> Result<List<Text>, Memory>
    ensures { IfOk result (λ texts. texts ≡ map (λ piece. piece.now) pieces.now) }
{
    let mut texts = List::new(alloc);
    for piece in pieces {
        texts.push(Text::from_str(alloc, piece)?)?;
    }
    Ok(texts)
}

/// The kinds of statements by what they are given, summed as numbers: SELECT where that is NULL.
/// `None` where they can't be read.
pub fn kinds_by(alloc: Global, text: &Option<Option<Text>>) -> Result<Option<u8>, Memory>
    ensures { IfOk result (λ kinds. kinds ≡ kinds_by text.now) }
{
    match text {
        None => Ok(None),
        Some(None) => Ok(Some(1)),
        Some(Some(text)) => {
            let pieces = pieces_of(alloc, text)?;
            Ok(kinds_in(pieces.as_slice()))
        }
    }
}

fn kinds_in(pieces: &[Text]) -> Option<u8>
    ensures { result ≡ kinds_in pieces.now }
{
    if are_kinds(pieces) {
        Some(kinds_named(pieces))
    } else {
        None
    }
}

fn are_kinds(pieces: &[Text]) -> bool
    ensures { result ≡ list_all is_kind pieces.now }
{
    pieces.iter().all(|piece| is_kind(piece))
}

fn is_kind(piece: &Text) -> bool
    ensures { result ≡ is_kind piece.now }
{
    is_word(piece, "SELECT")
        || is_word(piece, "INSERT")
        || is_word(piece, "UPDATE")
        || is_word(piece, "DELETE")
}

fn is_word(piece: &Text, word: &str) -> bool
    ensures { result ≡ is_word word.now piece.now }
{
    piece.as_str().eq_ignore_ascii_case(word)
}

fn kinds_named(pieces: &[Text]) -> u8
    ensures { result ≡ kinds_named pieces.now }
{
    kind_number(pieces, "SELECT", 1)
        + kind_number(pieces, "INSERT", 2)
        + kind_number(pieces, "UPDATE", 4)
        + kind_number(pieces, "DELETE", 8)
}

// The number of a kind that is among the pieces, else 0.
fn kind_number(pieces: &[Text], word: &str, number: u8) -> u8
    ensures value { result ≡ kind_number word.now number pieces.now }
    ensures bound { result ≤ number }
{
    if has_word(pieces, word) { number } else { 0 }
}

fn has_word(pieces: &[Text], word: &str) -> bool
    ensures { result ≡ list_any (is_word word.now) pieces.now }
{
    pieces.iter().any(|piece| is_word(piece, word))
}
