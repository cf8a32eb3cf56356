//! Expressions and conditions (SQL Language Reference, "Expressions" and "Conditions").

use au_base::{Boxed, List, Name, Text};

/// What a comparison asks of its sides.
#[derive(Clone, Copy, Debug, PartialEq, Eq)]
pub enum Relation {
    Equal,
    Unequal,
    Less,
    LessEqual,
    Greater,
    GreaterEqual,
}

/// An expression or a condition. Parentheses are gone.
#[derive(Clone, Debug, Drop, PartialEq, Eq)]
pub enum Expr {
    /// At least two conditions.
    Or(List<Expr>),
    /// At least two conditions.
    And(List<Expr>),
    Not(Boxed<Expr>),
    Compare(Relation, Boxed<Expr>, Boxed<Expr>),
    /// `IS NULL`; the truth value says that NOT stands inside the test, as in the next three.
    IsNull(Boxed<Expr>, bool),
    /// A text and its pattern.
    Like(Boxed<Expr>, Boxed<Expr>, bool),
    In(Boxed<Expr>, List<Expr>, bool),
    /// A value, the least and the greatest.
    Between(Boxed<Expr>, Boxed<Expr>, Boxed<Expr>, bool),
    /// At least two summands; the truth value says that `-` stands before one, which is false of
    /// the first: its sign is `Negate`.
    Sum(List<(bool, Expr)>),
    /// At least two factors.
    Product(List<Expr>),
    /// The sign `-`.
    Negate(Boxed<Expr>),
    Number(i64),
    /// The text literal; `''` is a text that is NULL.
    Literal(Text),
    Null,
    /// A column, under its table's name or alias where that is written.
    Column(Option<Name>, Name),
    /// USER.
    User,
    /// SYSTIMESTAMP.
    Now,
    /// A TIMESTAMP literal, in microseconds since 1970-01-01 00:00:00 UTC.
    Moment(u64),
    /// SYS_CONTEXT of USERENV: the attribute, SESSION_USER or SESSIONID, in upper case.
    Context(Text),
}
