//! Classes of bytes, and runs of them.
ghost use Rattle.std.specs.Prelude.{◌≡◌};
ghost use Rattle.std.specs.List.{prefix_len};
ghost use Rattle.std.specs.Str as utf8;
ghost use Rattle.sql_lex.specs.Bytes as class;
ghost use Rattle.sql_lex.specs.descent.Scan as spec;

use std::str;

/// Whether it is a space, tab, LF or CR.
pub fn is_blank(byte: u8) -> bool
    ensures { result ≡ class.is_blank byte }
{
    matches!(byte, b' ' | b'\t' | b'\n' | b'\r')
}

/// Whether it is a letter of ASCII.
pub fn is_letter(byte: u8) -> bool
    ensures { result ≡ class.is_letter byte }
{
    matches!(byte, b'A'..=b'Z' | b'a'..=b'z')
}

/// Whether it is a decimal digit.
pub fn is_digit(byte: u8) -> bool
    ensures { result ≡ class.is_digit byte }
{
    matches!(byte, b'0'..=b'9')
}

/// Whether it may stand in a word.
pub fn is_word_byte(byte: u8) -> bool
    ensures { result ≡ class.is_word_byte byte }
{
    is_letter(byte) || is_digit(byte) || matches!(byte, b'_' | b'$' | b'#')
}

/// Whether it may stand in a quoted name.
pub fn is_quotable(byte: u8) -> bool
    ensures { result ≡ class.is_quotable byte }
{
    byte != b'"' && byte != 0
}

/// Whether it may stand in a comment of one line.
pub fn is_line_byte(byte: u8) -> bool
    ensures { result ≡ class.is_line_byte byte }
{
    byte != b'\n'
}

/// The bytes of the front that may stand in a word, and those behind them.
#[tactic(auto, using(crate::proofs::Lengths::lengths))]
pub fn split_word(bytes: &[u8]) -> (&[u8], &[u8])
    ensures front { result.0.now ≡ spec.front class.is_word_byte bytes.now }
    ensures past { result.1.now ≡ spec.past class.is_word_byte bytes.now }
{
    bytes.split_at(word_len(bytes))
}

/// The digits of the front, and the bytes behind them.
#[tactic(auto, using(crate::proofs::Lengths::lengths))]
pub fn split_digits(bytes: &[u8]) -> (&[u8], &[u8])
    ensures front { result.0.now ≡ spec.front class.is_digit bytes.now }
    ensures past { result.1.now ≡ spec.past class.is_digit bytes.now }
{
    bytes.split_at(digits_len(bytes))
}

/// The bytes of the front that may stand in a quoted name, and those behind them.
#[tactic(auto, using(crate::proofs::Lengths::lengths))]
pub fn split_quotable(bytes: &[u8]) -> (&[u8], &[u8])
    ensures front { result.0.now ≡ spec.front class.is_quotable bytes.now }
    ensures past { result.1.now ≡ spec.past class.is_quotable bytes.now }
{
    bytes.split_at(quotable_len(bytes))
}

/// The bytes before the first LF, and those from it on.
#[tactic(auto, using(crate::proofs::Lengths::lengths))]
pub fn split_line(bytes: &[u8]) -> (&[u8], &[u8])
    ensures front { result.0.now ≡ spec.front class.is_line_byte bytes.now }
    ensures past { result.1.now ≡ spec.past class.is_line_byte bytes.now }
{
    bytes.split_at(line_len(bytes))
}

fn word_len(bytes: &[u8]) -> usize
    ensures { result ≡ prefix_len class.is_word_byte bytes.now }
{
    bytes.iter().take_while(|b| is_word_byte(**b)).count()
}

fn digits_len(bytes: &[u8]) -> usize
    ensures { result ≡ prefix_len class.is_digit bytes.now }
{
    bytes.iter().take_while(|b| is_digit(**b)).count()
}

fn quotable_len(bytes: &[u8]) -> usize
    ensures { result ≡ prefix_len class.is_quotable bytes.now }
{
    bytes.iter().take_while(|b| is_quotable(**b)).count()
}

fn line_len(bytes: &[u8]) -> usize
    ensures { result ≡ prefix_len class.is_line_byte bytes.now }
{
    bytes.iter().take_while(|b| is_line_byte(**b)).count()
}

/// Whether this byte comes next.
pub fn begins_with(byte: u8, bytes: &[u8]) -> bool
    ensures { result ≡ class.begins_with byte bytes.now }
{
    match bytes {
        [first, ..] => *first == byte,
        [] => false,
    }
}

/// Whether a byte that may stand in a word comes next.
pub fn begins_with_word_byte(bytes: &[u8]) -> bool
    ensures { result ≡ class.begins class.is_word_byte bytes.now }
{
    match bytes {
        [first, ..] => is_word_byte(*first),
        [] => false,
    }
}

/// The bytes behind the first.
pub fn behind(bytes: &[u8]) -> &[u8]
    ensures { result.now ≡ spec.behind bytes.now }
{
    match bytes {
        [_, rest @ ..] => rest,
        [] => bytes,
    }
}

/// Whether the bytes are UTF-8.
pub fn is_utf8(bytes: &[u8]) -> bool
    ensures { result ≡ utf8.is_utf8 bytes.now }
{
    match str::from_utf8(bytes) {
        Ok(_) => true,
        Err(_) => false,
    }
}
