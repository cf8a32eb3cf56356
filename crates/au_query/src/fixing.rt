//! Columns that the conditions of a query fix, by a comparison with a value that names no column.
ghost use Rattle.std.specs.Prelude.{◌≡◌, ◌≢◌, ◌<◌, ◌+◌, ◌∷◌, ◌++◌, ℕ, [], false, IfOk, IfSome, IsTrue, map, length};
ghost use Rattle.std.specs.List.{list_any};
ghost use Rattle.std.specs.Option.{option_to_list};
ghost use Rattle.au_expr.specs.declared.placed.Placed.TheVariants as tree;
ghost use Rattle.au_expr.specs.Kinds.{kind_at};
ghost use Rattle.au_expr.specs.Overflows.{can_overflow};
ghost use Rattle.au_expr.specs.Placing.{value_at};
ghost use Rattle.au_expr.specs.Ranges.{names_range};
ghost use Rattle.au_expr.specs.Resolving.{placed};
ghost use Rattle.au_expr.specs.Sessions.{Session};
ghost use Rattle.au_expr.specs.Values.{Is};
ghost use Rattle.au_query.specs.Counts.{condition_of};
ghost use Rattle.au_query.specs.Fixed.{AreFixed, IsFixed, NeverOverflows};
ghost use Rattle.au_query.specs.descent.Inside.{IsAlways, IsColumnAt, trees_of_conditions};
ghost use Rattle.au_query.specs.descent.Outputs.{tree_of, trees_in};
ghost use Rattle.au_query.specs.Queries.{conditions_of, items_of, on_of, ons_of};
ghost use Rattle.sql_ast.specs.declared.expression.Relation.TheVariants as relation;

use crate::output::Output;
use crate::planning::{Plan, planned, with_where};
use crate::refusing::front;
use au_base::{Cell, Column, List, Memory, Name};
use au_expr::{
    ExprKind, Place, Resolved, Row, SessionFacts, column_place, later_ranges_dont_matter,
    named_ranges_suffice, no_overflow_where_none_can, parts_of_and_are_met, resolve_value, value,
};
use sql_ast::{Count, Expr, Join, Relation, Select};
use std::alloc::Global;
use std::slice;

/// The conditions of a query: ON of each join, and WHERE, with the ranges of its tables.
#[derive(Clone, Copy)]
pub struct Conditions<'q> {
    pub joins: &'q [Join],
    pub last: &'q Option<Expr>,
    pub ranges: &'q [(Name, List<Column>)],
}

/// A column that is looked for: the ranges in which names are looked up, the number of its range
/// and its own number there, both from 0.
#[derive(Clone, Copy)]
pub struct Sought<'q> {
    pub ranges: &'q [(Name, List<Column>)],
    pub range: usize,
    pub column: usize,
}

/// The cells to which the conditions of a SELECT fix these columns of a range, where they fix each
/// of them: by a comparison with a value that names no column, which stands as a condition or as a
/// part of one that AND joins. Columns and range have numbers from 0.
pub fn fixed_cells(
    alloc: Global,
    select: &Select,
    ranges: &[(Name, List<Column>)],
    session: &SessionFacts,
    range: usize,
    columns: &[u32],
) -> Result<Option<Vec<Cell>>, Memory>
    ensures { IfOk result (λ found. IfSome found (λ cells. AreFixed session.now (conditions_of ranges.now select.now) range columns.now cells.items)) }
{
    let conditions = Conditions {
        joins: select.from.joins.as_slice(),
        last: &select.condition,
        ranges,
    };
    let found = all_fixed(alloc, &conditions, session, range, columns)?;
    Ok(found)
}

/// The cells to which WHERE of a COUNT fixes these columns of its table, as for a SELECT.
pub fn fixed_cells_of_count(
    alloc: Global,
    count: &Count,
    range: &(Name, List<Column>),
    session: &SessionFacts,
    columns: &[u32],
) -> Result<Option<Vec<Cell>>, Memory>
    ensures { IfOk result (λ found. IfSome found (λ cells. AreFixed session.now (condition_of range.now count.now) 0 columns.now cells.items)) }
{
    fixed_by_where(alloc, &count.condition, range, session, columns)
}

/// The cells to which WHERE over one table fixes these columns of it, as for a SELECT.
pub fn fixed_by_where(
    alloc: Global,
    condition: &Option<Expr>,
    range: &(Name, List<Column>),
    session: &SessionFacts,
    columns: &[u32],
) -> Result<Option<Vec<Cell>>, Memory>
    ensures { IfOk result (λ found. IfSome found (λ cells. AreFixed session.now (map (placed (range.now ∷ [])) (option_to_list condition.now)) 0 columns.now cells.items)) }
{
    let conditions = Conditions {
        joins: no_joins(),
        last: condition,
        ranges: slice::from_ref(range),
    };
    let found = all_fixed(alloc, &conditions, session, 0, columns)?;
    Ok(found)
}

fn no_joins() -> &'static [Join]
    ensures { result.now ≡ [] }
{
    &[]
}

/// Whether no ON, no WHERE and no item of a SELECT can overflow over rows of sound cells. A query
/// that names or kinds refuse counts as one that can.
pub fn never_overflows(
    alloc: Global,
    select: &Select,
    ranges: &[(Name, List<Column>)],
) -> Result<bool, Memory>
    ensures { IfOk result (λ never. IsTrue never → (session : Session) → NeverOverflows session (conditions_of ranges.now select.now ++ items_of ranges.now select.now.items)) }
{
    no_overflow_where_none_can();
    match planned(alloc, select, ranges)? {
        Ok(plan) => Ok(!can_plan_overflow(&plan)),
        Err(_) => Ok(false),
    }
}

/// Whether WHERE of a COUNT can't overflow over rows of sound cells, as for a SELECT.
pub fn count_never_overflows(
    alloc: Global,
    count: &Count,
    range: &(Name, List<Column>),
) -> Result<bool, Memory>
    ensures { IfOk result (λ never. IsTrue never → (session : Session) → NeverOverflows session (condition_of range.now count.now)) }
{
    where_never_overflows(alloc, &count.condition, range)
}

/// Whether WHERE over one table can't overflow over rows of sound cells, as for a SELECT.
pub fn where_never_overflows(
    alloc: Global,
    condition: &Option<Expr>,
    range: &(Name, List<Column>),
) -> Result<bool, Memory>
    ensures { IfOk result (λ never. IsTrue never → (session : Session) → NeverOverflows session (map (placed (range.now ∷ [])) (option_to_list condition.now))) }
{
    no_overflow_where_none_can();
    match with_where(alloc, Vec::new(alloc), condition, slice::from_ref(range))? {
        Ok(conditions) => Ok(!can_one_overflow(conditions.as_slice())),
        Err(_) => Ok(false),
    }
}

fn can_plan_overflow(plan: &Plan) -> bool
    ensures { result ≡ list_any can_overflow (plan.now.conditions.items ++ trees_in plan.now.outputs.items) }
{
    can_one_overflow(plan.conditions.as_slice()) || can_output_overflow(plan.outputs.as_slice())
}

fn can_one_overflow(conditions: &[Resolved]) -> bool
    ensures { result ≡ list_any can_overflow conditions.now }
{
    for condition in conditions {
        if condition.can_overflow() {
            return true;
        }
    }
    false
}

fn can_output_overflow(outputs: &[Output]) -> bool
    ensures { result ≡ list_any can_overflow (trees_in outputs.now) }
{
    for output in outputs {
        if can_it_overflow(output) {
            return true;
        }
    }
    false
}

#[tactic(auto, using(crate::proofs::Equalities::column_stays))]
fn can_it_overflow(output: &Output) -> bool
    ensures { result ≡ can_overflow (tree_of output.now) }
{
    match output {
        Output::Column(_place) => false,
        Output::Value(computed) => computed.expr().can_overflow(),
    }
}

fn all_fixed(
    alloc: Global,
    conditions: &Conditions<'_>,
    session: &SessionFacts,
    range: usize,
    columns: &[u32],
) -> Result<Option<Vec<Cell>>, Memory>
    ensures { IfOk result (λ found. IfSome found (λ cells. AreFixed session.now (trees_of_conditions conditions.now) range columns.now cells.items)) }
{
    let mut cells = Vec::new(alloc);
    for column in columns {
        match fixed(alloc, conditions, session, range, *column as usize)? {
            Some(cell) => cells.push(cell)?,
            None => return Ok(None),
        }
    }
    Ok(Some(cells))
}

// The cell to which one of the conditions fixes the column.
fn fixed(
    alloc: Global,
    conditions: &Conditions<'_>,
    session: &SessionFacts,
    range: usize,
    column: usize,
) -> Result<Option<Cell>, Memory>
    ensures { IfOk result (λ found. IfSome found (IsFixed session.now (trees_of_conditions conditions.now) range column)) }
{
    let sought = Sought {
        ranges: conditions.ranges,
        range,
        column,
    };
    match in_joins(alloc, conditions.joins, &sought, session)? {
        Some(cell) => Ok(Some(cell)),
        None => {
            let found = in_where(alloc, conditions.last, &sought, session)?;
            Ok(found)
        }
    }
}

fn in_joins(
    alloc: Global,
    joins: &[Join],
    sought: &Sought<'_>,
    session: &SessionFacts,
) -> Result<Option<Cell>, Memory>
    ensures { IfOk result (λ found. IfSome found (IsFixed session.now (ons_of sought.now.ranges.now joins.now) sought.now.range sought.now.column)) }
{
    for (number, join) in joins.iter().enumerate() {
        if let Some(cell) = in_on(alloc, number, join, sought, session)? {
            return Ok(Some(cell));
        }
    }
    Ok(None)
}

// Looked for in the condition of the join of this number, whose names are those of the ranges up to
// its own.
fn in_on(
    alloc: Global,
    number: usize,
    join: &Join,
    sought: &Sought<'_>,
    session: &SessionFacts,
) -> Result<Option<Cell>, Memory>
    ensures { IfOk result (λ found. IfSome found (IsFixed session.now (on_of sought.now.ranges.now (number + 2, join.now)) sought.now.range sought.now.column)) }
{
    let here = Sought {
        ranges: front(sought.ranges, number),
        range: sought.range,
        column: sought.column,
    };
    let found = in_where(alloc, &join.on, &here, session)?;
    Ok(found)
}

fn in_where(
    alloc: Global,
    condition: &Option<Expr>,
    sought: &Sought<'_>,
    session: &SessionFacts,
) -> Result<Option<Cell>, Memory>
    ensures { IfOk result (λ found. IfSome found (IsFixed session.now (map (placed sought.now.ranges.now) (option_to_list condition.now)) sought.now.range sought.now.column)) }
{
    match condition {
        None => Ok(None),
        Some(condition) => {
            let found = in_condition(alloc, condition, sought, session)?;
            Ok(found)
        }
    }
}

fn in_condition(
    alloc: Global,
    condition: &Expr,
    sought: &Sought<'_>,
    session: &SessionFacts,
) -> Result<Option<Cell>, Memory>
    ensures { IfOk result (λ found. IfSome found (IsFixed session.now (placed sought.now.ranges.now condition.now ∷ []) sought.now.range sought.now.column)) }
{
    parts_of_and_are_met();
    match condition {
        Expr::And(parts) => {
            let found = in_parts(alloc, parts.as_slice(), sought, session)?;
            Ok(found)
        }
        _ => {
            let found = in_test(alloc, condition, sought, session)?;
            Ok(found)
        }
    }
}

fn in_parts(
    alloc: Global,
    parts: &[Expr],
    sought: &Sought<'_>,
    session: &SessionFacts,
) -> Result<Option<Cell>, Memory>
    ensures { IfOk result (λ found. IfSome found (IsFixed session.now (map (placed sought.now.ranges.now) parts.now) sought.now.range sought.now.column)) }
{
    for part in parts {
        if let Some(cell) = in_test(alloc, part, sought, session)? {
            return Ok(Some(cell));
        }
    }
    Ok(None)
}

fn in_test(
    alloc: Global,
    test: &Expr,
    sought: &Sought<'_>,
    session: &SessionFacts,
) -> Result<Option<Cell>, Memory>
    ensures { IfOk result (λ found. IfSome found (IsFixed session.now (placed sought.now.ranges.now test.now ∷ []) sought.now.range sought.now.column)) }
{
    match test {
        Expr::Compare(Relation::Equal, left, right) => {
            let found = in_sides(alloc, left.get(), right.get(), sought, session)?;
            Ok(found)
        }
        _ => Ok(None),
    }
}

// Looked for in an equality of two sides.
fn in_sides(
    alloc: Global,
    left: &Expr,
    right: &Expr,
    sought: &Sought<'_>,
    session: &SessionFacts,
) -> Result<Option<Cell>, Memory>
    ensures { IfOk result (λ found. IfSome found (IsFixed session.now (tree.Compare relation.Equal (placed sought.now.ranges.now left.now) (placed sought.now.ranges.now right.now) ∷ []) sought.now.range sought.now.column)) }
{
    if is_sought(left, sought) {
        let found = lone_cell(alloc, right, sought.ranges, session)?;
        return Ok(found);
    }
    if is_sought(right, sought) {
        let found = lone_cell(alloc, left, sought.ranges, session)?;
        return Ok(found);
    }
    Ok(None)
}

fn is_sought(expr: &Expr, sought: &Sought<'_>) -> bool
    ensures { IsTrue result → IsColumnAt (placed sought.now.ranges.now expr.now) sought.now.range sought.now.column }
{
    match column_of(expr, sought.ranges) {
        Some(place) => place.range == sought.range && place.column == sought.column,
        None => false,
    }
}

fn column_of(expr: &Expr, ranges: &[(Name, List<Column>)]) -> Option<Place>
    ensures { IfSome result (λ place. placed ranges.now expr.now ≡ tree.Column place) }
{
    match expr {
        Expr::Column(written, name) => match column_place(ranges, written, name) {
            Ok(place) => Some(place),
            Err(_) => None,
        },
        _ => None,
    }
}

// The cell that a value gives which names no column.
fn lone_cell(
    alloc: Global,
    expr: &Expr,
    ranges: &[(Name, List<Column>)],
    session: &SessionFacts,
) -> Result<Option<Cell>, Memory>
    ensures { IfOk result (λ found. IfSome found (IsAlways session.now (placed ranges.now expr.now))) }
{
    later_ranges_dont_matter();
    named_ranges_suffice();
    match resolve_value(alloc, expr, ranges, None)? {
        Ok(resolved) => {
            if names_one_of(&resolved, ranges.len()) {
                return Ok(None);
            }
            let found = cell_over_nothing(&resolved, session)?;
            Ok(found)
        }
        Err(_) => Ok(None),
    }
}

fn names_one_of(resolved: &Resolved, count: usize) -> bool
    ensures { result ≡ false → (range : ℕ) → range < count → names_range range resolved.now ≡ false }
{
    for range in 0..count {
        if resolved.names_range(range) {
            return true;
        }
    }
    false
}

// What it gives over no rows; none where it overflows.
fn cell_over_nothing(resolved: &Resolved, session: &SessionFacts) -> Result<Option<Cell>, Memory>
    requires { kind_at resolved.now ≢ ExprKind.Truth }
    ensures { IfOk result (λ found. IfSome found (λ cell. value_at [] session.now resolved.now ≡ Is cell)) }
{
    match value(resolved, &Row::new(), session)? {
        Ok(cell) => Ok(Some(cell)),
        Err(_) => Ok(None),
    }
}
