//! The codes of WHERE.
ghost use Rattle.std.specs.Prelude.{◌≡◌};
ghost use Rattle.au_choose.specs.Choosing.{where_kind, where_name};

use au_base::{Code, Column, List, Name};
use au_expr::{condition_code, name_code};
use sql_ast::Expr;
use std::slice;

/// 904 or 918 of WHERE, where there is one. It takes no memory.
pub fn where_name_code(condition: &Option<Expr>, range: &(Name, List<Column>)) -> Option<Code>
    ensures { result ≡ where_name range.now condition.now }
{
    match condition {
        Some(condition) => name_code(condition, slice::from_ref(range)),
        None => None,
    }
}

/// That code of WHERE, and where it has none, 932. It takes no memory.
pub fn where_kind_code(condition: &Option<Expr>, range: &(Name, List<Column>)) -> Option<Code>
    ensures { result ≡ where_kind range.now condition.now }
{
    match condition {
        Some(condition) => condition_code(condition, slice::from_ref(range)),
        None => None,
    }
}
