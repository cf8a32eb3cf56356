//! Queries with the places of their columns.
ghost use Rattle.std.specs.Prelude.{◌≡◌, ◌+◌, ◌++◌, ◌∷◌, [], IfOk, None, map};
ghost use Rattle.std.specs.List.{enumerate_from};
ghost use Rattle.std.specs.Option.{option_to_list};
ghost use Rattle.au_expr.specs.Names as names;
ghost use Rattle.au_expr.specs.Names.{first};
ghost use Rattle.au_expr.specs.Resolving as resolving;
ghost use Rattle.au_expr.specs.Resolving.{placed};
ghost use Rattle.au_query.specs.descent.Outputs.{tree_of, trees_in};
ghost use Rattle.au_query.specs.descent.Plans.{Finds, IsPlanOf, IsPlanned};
ghost use Rattle.au_query.specs.Queries.{all_columns, columns_of_range, items_of, on_of, ons_of, order_of};
ghost use Rattle.au_query.specs.Refusals.{code_if_there, item_codes, key_codes, kind_refusal, on_code, on_codes, where_code};

use crate::output::{Computed, Output};
use crate::refusing::{front, name_refusal};
use au_base::{Code, Column, List, Memory, Name};
use au_expr::{
    Place, Resolved, column_place, condition_code, resolve_condition, resolve_value, value_code,
};
use sql_ast::{Expr, Item, Items, Join, Select, SortKey};
use std::alloc::Global;

/// A query with places in place of names.
#[derive(Drop)]
pub struct Plan {
    pub conditions: Vec<Resolved>,
    pub outputs: Vec<Output>,
    pub keys: Vec<(Place, bool)>,
}

/// The query with the places of its columns, or the first 904 or 918 in written order, and else the
/// first 932.
pub fn planned(
    alloc: Global,
    select: &Select,
    ranges: &[(Name, List<Column>)],
) -> Result<Result<Plan, Code>, Memory>
    ensures { IfOk result (IsPlanned ranges.now select.now) }
{
    if let Some(code) = name_refusal(select, ranges) {
        return Ok(Err(code));
    }
    match order(alloc, &select.order, ranges)? {
        Ok(keys) => {
            let plan = with_keys(alloc, select, ranges, keys)?;
            Ok(plan)
        }
        Err(code) => Ok(Err(code)),
    }
}

// The plan with these keys, or the first 932.
fn with_keys(
    alloc: Global,
    select: &Select,
    ranges: &[(Name, List<Column>)],
    keys: Vec<(Place, bool)>,
) -> Result<Result<Plan, Code>, Memory>
    requires { keys.items ≡ order_of ranges.now select.now.order }
    ensures { IfOk result (Finds (kind_refusal ranges.now select.now) (IsPlanOf ranges.now select.now)) }
{
    let outputs = match outputs(alloc, &select.items, ranges)? {
        Ok(outputs) => outputs,
        Err(code) => return Ok(Err(code)),
    };
    let joined = match ons(alloc, select.from.joins.as_slice(), ranges)? {
        Ok(joined) => joined,
        Err(code) => return Ok(Err(code)),
    };
    match with_where(alloc, joined, &select.condition, ranges)? {
        Ok(conditions) => Ok(Ok(Plan {
            conditions,
            outputs,
            keys,
        })),
        Err(code) => Ok(Err(code)),
    }
}

fn outputs(
    alloc: Global,
    items: &Items,
    ranges: &[(Name, List<Column>)],
) -> Result<Result<Vec<Output>, Code>, Memory>
    ensures { IfOk result (Finds (first (item_codes (resolving.value_code None ranges.now) items.now)) (λ outputs. trees_in outputs.items ≡ items_of ranges.now items.now)) }
{
    match items {
        Items::All => {
            let columns = columns(alloc, ranges)?;
            Ok(Ok(columns))
        }
        Items::Listed(items) => {
            let listed = listed(alloc, items.as_slice(), ranges)?;
            Ok(listed)
        }
    }
}

// All columns of all ranges.
fn columns(alloc: Global, ranges: &[(Name, List<Column>)]) -> Result<Vec<Output>, Memory>
    ensures { IfOk result (λ outputs. trees_in outputs.items ≡ all_columns ranges.now) }
{
    let mut outputs = Vec::new(alloc);
    for (number, (_, columns)) in ranges.iter().enumerate() {
        add_columns(&mut outputs, number, columns.as_slice())?;
    }
    Ok(outputs)
}

fn add_columns(outputs: &mut Vec<Output>, range: usize, columns: &[Column]) -> Result<(), Memory>
    ensures { IfOk result (λ done. trees_in outputs.new.items ≡ trees_in outputs.old.items ++ map (λ column. tree_of (Output.Column (names.place_of range column))) (enumerate_from 0 columns.now)) }
{
    for (number, column) in columns.iter().enumerate() {
        let place = Place {
            range,
            column: number,
            kind: column.kind,
        };
        outputs.push(Output::Column(place))?;
    }
    Ok(())
}

fn listed(
    alloc: Global,
    items: &[Item],
    ranges: &[(Name, List<Column>)],
) -> Result<Result<Vec<Output>, Code>, Memory>
    ensures { IfOk result (Finds (first (map (λ item. resolving.value_code None ranges.now item.value) items.now)) (λ outputs. trees_in outputs.items ≡ map (λ item. placed ranges.now item.value) items.now)) }
{
    let mut outputs = Vec::new(alloc);
    for item in items {
        match computed(alloc, &item.value, ranges)? {
            Ok(value) => outputs.push(Output::Value(value))?,
            Err(code) => return Ok(Err(code)),
        }
    }
    Ok(Ok(outputs))
}

fn computed(
    alloc: Global,
    value: &Expr,
    ranges: &[(Name, List<Column>)],
) -> Result<Result<Computed, Code>, Memory>
    ensures { IfOk result (Finds (resolving.value_code None ranges.now value.now) (λ found. found ≡ placed ranges.now value.now)) }
{
    if let Some(code) = value_code(value, ranges, None) {
        return Ok(Err(code));
    }
    match resolve_value(alloc, value, ranges, None)? {
        Ok(resolved) => Ok(Ok(Computed::new(resolved))),
        Err(code) => Ok(Err(code)),
    }
}

fn ons(
    alloc: Global,
    joins: &[Join],
    ranges: &[(Name, List<Column>)],
) -> Result<Result<Vec<Resolved>, Code>, Memory>
    ensures { IfOk result (Finds (first (on_codes resolving.condition_code ranges.now joins.now)) (λ found. found.items ≡ ons_of ranges.now joins.now)) }
{
    let mut conditions = Vec::new(alloc);
    for (number, join) in joins.iter().enumerate() {
        if let Some(code) = add_on(alloc, &mut conditions, number, join, ranges)? {
            return Ok(Err(code));
        }
    }
    Ok(Ok(conditions))
}

// Adds the condition of the join of this number, where it has one, or answers its code.
fn add_on(
    alloc: Global,
    conditions: &mut Vec<Resolved>,
    number: usize,
    join: &Join,
    ranges: &[(Name, List<Column>)],
) -> Result<Option<Code>, Memory>
    ensures code { IfOk result (λ refused. refused ≡ on_code resolving.condition_code ranges.now (number + 2, join.now)) }
    ensures added { IfOk result (λ refused. refused ≡ None → conditions.new.items ≡ conditions.old.items ++ on_of ranges.now (number + 2, join.now)) }
{
    let up_to_it = front(ranges, number);
    let refused = add_condition(alloc, conditions, &join.on, up_to_it)?;
    Ok(refused)
}

fn add_condition(
    alloc: Global,
    conditions: &mut Vec<Resolved>,
    on: &Option<Expr>,
    ranges: &[(Name, List<Column>)],
) -> Result<Option<Code>, Memory>
    ensures code { IfOk result (λ refused. refused ≡ code_if_there (resolving.condition_code ranges.now) on.now) }
    ensures added { IfOk result (λ refused. refused ≡ None → conditions.new.items ≡ conditions.old.items ++ map (placed ranges.now) (option_to_list on.now)) }
{
    let Some(on) = on else {
        return Ok(None);
    };
    match condition(alloc, on, ranges)? {
        Ok(condition) => {
            conditions.push(condition)?;
            Ok(None)
        }
        Err(code) => Ok(Some(code)),
    }
}

/// The conditions and WHERE, where there is one, or its 932.
pub fn with_where(
    alloc: Global,
    conditions: Vec<Resolved>,
    last: &Option<Expr>,
    ranges: &[(Name, List<Column>)],
) -> Result<Result<Vec<Resolved>, Code>, Memory>
    ensures { IfOk result (Finds (where_code resolving.condition_code ranges.now last.now) (λ found. found.items ≡ conditions.items ++ map (placed ranges.now) (option_to_list last.now))) }
{
    let mut conditions = conditions;
    let Some(last) = last else {
        return Ok(Ok(conditions));
    };
    match condition(alloc, last, ranges)? {
        Ok(condition) => {
            conditions.push(condition)?;
            Ok(Ok(conditions))
        }
        Err(code) => Ok(Err(code)),
    }
}

fn condition(
    alloc: Global,
    condition: &Expr,
    ranges: &[(Name, List<Column>)],
) -> Result<Result<Resolved, Code>, Memory>
    ensures { IfOk result (Finds (resolving.condition_code ranges.now condition.now) (λ found. found ≡ placed ranges.now condition.now)) }
{
    if let Some(code) = condition_code(condition, ranges) {
        return Ok(Err(code));
    }
    match resolve_condition(alloc, condition, ranges)? {
        Ok(resolved) => Ok(Ok(resolved)),
        Err(code) => Ok(Err(code)),
    }
}

fn order(
    alloc: Global,
    order: &Option<List<SortKey>>,
    ranges: &[(Name, List<Column>)],
) -> Result<Result<Vec<(Place, bool)>, Code>, Memory>
    ensures { IfOk result (Finds (first (key_codes ranges.now order.now)) (λ keys. keys.items ≡ order_of ranges.now order.now)) }
{
    let mut keys = Vec::new(alloc);
    let Some(order) = order else {
        return Ok(Ok(keys));
    };
    for key in order.as_slice() {
        match column_place(ranges, &key.table, &key.column) {
            Ok(place) => keys.push((place, key.descending))?,
            Err(code) => return Ok(Err(code)),
        }
    }
    Ok(Ok(keys))
}
