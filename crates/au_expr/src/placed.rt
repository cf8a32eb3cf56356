//! Expressions whose columns are places.

use au_base::{Boxed, ColumnKind, List, Text};
use sql_ast::Relation;

/// Where a column stands: the number of its range in the scope, its own number in the range, both
/// from 0, and its kind.
#[derive(Clone, Copy, Debug, PartialEq, Eq)]
pub struct Place {
    pub range: usize,
    pub column: usize,
    pub kind: ColumnKind,
}

/// An expression as `sql_ast::Expr`, with the places of its columns in place of their names.
#[derive(Drop)]
pub enum Placed {
    Or(List<Placed>),
    And(List<Placed>),
    Not(Boxed<Placed>),
    Compare(Relation, Boxed<Placed>, Boxed<Placed>),
    IsNull(Boxed<Placed>, bool),
    Like(Boxed<Placed>, Boxed<Placed>, bool),
    In(Boxed<Placed>, List<Placed>, bool),
    Between(Boxed<Placed>, Boxed<Placed>, Boxed<Placed>, bool),
    Sum(List<(bool, Placed)>),
    Product(List<Placed>),
    Negate(Boxed<Placed>),
    Number(i64),
    Literal(Text),
    Null,
    Column(Place),
    /// USER, and SYS_CONTEXT of SESSION_USER.
    User,
    /// SYS_CONTEXT of SESSIONID.
    SessionNumber,
    /// SYSTIMESTAMP.
    Now,
    Moment(u64),
}
