//! Tokens.

use au_base::{Name, Text};

/// A mark of one byte or two.
#[derive(Clone, Copy, Debug, PartialEq, Eq)]
pub enum Mark {
    /// `(`
    OpenParenthesis,
    /// `)`
    CloseParenthesis,
    /// `,`
    Comma,
    /// `.`
    Period,
    /// `;`
    Semicolon,
    /// `*`
    Asterisk,
    /// `+`
    Plus,
    /// `-`
    Minus,
    /// `=`
    Equal,
    /// `<`
    Less,
    /// `>`
    Greater,
    /// `<>`
    LessGreater,
    /// `!=`
    NotEqual,
    /// `<=`
    LessEqual,
    /// `>=`
    GreaterEqual,
    /// `=>`
    Arrow,
}

/// What a token is.
#[derive(Debug, Drop, PartialEq, Eq)]
pub enum Kind {
    /// An unquoted word, in upper case.
    Word(Text),
    /// A quoted name, as it is written.
    Quoted(Name),
    /// A number without a sign, below 10^18.
    Number(i64),
    /// What a text literal stands for.
    Text(Text),
    Mark(Mark),
}

/// A token, and the bytes of the text that it is: those at `from` and behind it, before `to`.
#[derive(Debug, Drop, PartialEq, Eq)]
pub struct Token {
    pub kind: Kind,
    pub from: u32,
    pub to: u32,
}

/// No token starts at this place.
#[derive(Clone, Copy, Debug, PartialEq, Eq)]
pub struct LexFault {
    pub at: u32,
}
