//! The columns that a statement gives values, and the values.
ghost use Rattle.std.specs.Prelude.{◌≡◌, ◌≤◌, ℕ, List as Listed, None, Some, length, map};
ghost use Rattle.std.specs.List.{AllByRecursion, list_any, zip};
ghost use Rattle.std.specs.Str.{bytes_eq};
ghost use Rattle.au_base.specs.declared.table.Column.{Column as Of};
ghost use Rattle.au_expr.specs.Names.{first};
ghost use Rattle.au_expr.specs.Rows.{Range};
ghost use Rattle.au_modify.specs.Columns.{column_called as called};
ghost use Rattle.au_modify.specs.Targets as spec;
ghost use Rattle.sql_ast.specs.declared.expression.Expr.{Expr as Tree};

use crate::columns::{column_called, has_column};
use au_base::{Code, Column, List, Name};
use au_expr::{name_code, value_code};
use sql_ast::Expr;

/// The first rule that the names of columns break, in their order: 904 of one that no column has,
/// 957 of one that stands before. It takes no memory.
pub fn target_refusal(columns: &[Column], names: &[Name]) -> Option<Code>
    ensures { result ≡ spec.target_refusal columns.now names.now }
{
    for (place, name) in names.iter().enumerate() {
        if let Some(code) = target_code(columns, names, place, name) {
            return Some(code);
        }
    }
    None
}

fn target_code(columns: &[Column], names: &[Name], place: usize, name: &Name) -> Option<Code>
    requires { place ≤ length names.now }
    ensures { result ≡ spec.target_code columns.now names.now (place, name.now) }
{
    if !has_column(columns, name) {
        return Some(Code::UNKNOWN_COLUMN);
    }
    if is_one_of(&names[..place], name) {
        return Some(Code::COLUMN_TWICE);
    }
    None
}

fn is_one_of(names: &[Name], name: &Name) -> bool
    ensures { result ≡ list_any (bytes_eq name.now) names.now }
{
    names.iter().any(|other| *name == *other)
}

/// The first code, in their order, of a name in one of the values that doesn't mean one column. It
/// takes no memory.
pub fn names_refusal(ranges: &[(Name, List<Column>)], values: &[Expr]) -> Option<Code>
    ensures { result ≡ spec.names_refusal ranges.now values.now }
{
    for value in values {
        if let Some(code) = name_code(value, ranges) {
            return Some(code);
        }
    }
    None
}

/// The first 932, in their order, of a value that isn't of the kind of its column; the values are
/// those of the columns of these names. It takes no memory.
pub fn kinds_refusal(
    ranges: &[(Name, List<Column>)],
    columns: &[Column],
    names: &[Name],
    values: &[Expr],
) -> Option<Code>
    ensures { result ≡ spec.kinds_refusal ranges.now columns.now names.now values.now }
{
    let mut next = 0;
    for name in names {
        if let Some(column) = column_called(columns, name) {
            if next >= values.len() {
                return None;
            }
            if let Some(code) = value_code(&values[next], ranges, Some(column.kind)) {
                return Some(code);
            }
            next += 1;
        }
    }
    None
}

/// 932 of a value that isn't of the kind of the column of this name; nothing where there is none. It
/// takes no memory.
pub fn kind_code_of(
    ranges: &[(Name, List<Column>)],
    columns: &[Column],
    name: &Name,
    value: &Expr,
) -> Option<Code>
    ensures { result ≡ spec.kind_code_of ranges.now columns.now (name.now, value.now) }
{
    match column_called(columns, name) {
        Some(column) => value_code(value, ranges, Some(column.kind)),
        None => None,
    }
}

/// Where columns have the names, the first value that isn't of its column's kind is told by each name
/// and its value. It does nothing, and states the law for its callers.
pub fn kinds_are_told_one_by_one()
    ensures { (ranges : Listed Range) (columns : Listed Of) (names : Listed (Listed ℕ)) (values : Listed Tree)
        → spec.target_refusal columns names ≡ None
        → spec.kinds_refusal ranges columns names values ≡ first (map (spec.kind_code_of ranges columns) (zip names values)) }
{}

/// Where names of columns break no rule, a column has each of them. It does nothing, and states the
/// law for its callers.
pub fn targets_are_columns()
    ensures { (columns : Listed Of) (names : Listed (Listed ℕ)) → spec.target_refusal columns names ≡ None
        → AllByRecursion (λ name. (column : Of) × (called columns name ≡ Some column)) names }
{}
