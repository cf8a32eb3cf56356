//! The names of a query that don't mean one column.
ghost use Rattle.std.specs.Prelude.{◌≡◌, ◌+◌, ◌∷◌, [], take};
ghost use Rattle.au_expr.specs.Names as names;
ghost use Rattle.au_expr.specs.Names.{first, or_code};
ghost use Rattle.au_query.specs.Refusals.{code_if_there, item_codes, on_codes, where_code};

use au_base::{Code, Column, List, Name};
use au_expr::name_code;
use sql_ast::{Expr, Items, Join, Select};

/// The first 904 or 918 of items, ON and WHERE, in written order.
pub fn name_refusal(select: &Select, ranges: &[(Name, List<Column>)]) -> Option<Code>
    ensures { result ≡ first (
        first (item_codes (names.name_code ranges.now) select.now.items)
        ∷ first (on_codes names.name_code ranges.now select.now.from.joins)
        ∷ where_code names.name_code ranges.now select.now.condition ∷ []) }
{
    let of_items = items_code(&select.items, ranges);
    let of_joins = joins_code(select.from.joins.as_slice(), ranges);
    let of_condition = condition_code(&select.condition, ranges);
    or(of_items, or(of_joins, of_condition))
}

fn or(earlier: Option<Code>, later: Option<Code>) -> Option<Code>
    ensures { result ≡ or_code earlier later }
{
    match earlier {
        Some(code) => Some(code),
        None => later,
    }
}

fn items_code(items: &Items, ranges: &[(Name, List<Column>)]) -> Option<Code>
    ensures { result ≡ first (item_codes (names.name_code ranges.now) items.now) }
{
    match items {
        Items::All => None,
        Items::Listed(items) => {
            for item in items.as_slice() {
                if let Some(code) = name_code(&item.value, ranges) {
                    return Some(code);
                }
            }
            None
        }
    }
}

fn joins_code(joins: &[Join], ranges: &[(Name, List<Column>)]) -> Option<Code>
    ensures { result ≡ first (on_codes names.name_code ranges.now joins.now) }
{
    for (number, join) in joins.iter().enumerate() {
        if let Some(code) = condition_code(&join.on, front(ranges, number)) {
            return Some(code);
        }
    }
    None
}

/// The ranges up to that of the join of this number, from 0.
pub fn front(ranges: &[(Name, List<Column>)], number: usize) -> &[(Name, List<Column>)]
    ensures { result.now ≡ take (number + 2) ranges.now }
{
    if number < ranges.len() && number + 2 < ranges.len() {
        &ranges[..number + 2]
    } else {
        ranges
    }
}

/// The first 904 or 918 of a condition, where there is one.
pub fn condition_code(condition: &Option<Expr>, ranges: &[(Name, List<Column>)]) -> Option<Code>
    ensures { result ≡ code_if_there (names.name_code ranges.now) condition.now }
{
    match condition {
        Some(condition) => name_code(condition, ranges),
        None => None,
    }
}
