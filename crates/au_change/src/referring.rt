//! The columns that an UPDATE references.
ghost use Rattle.std.specs.Prelude.{◌≡◌, ◌||◌, ◌∷◌, [], IfOk, None, map};
ghost use Rattle.std.specs.List.{list_any};
ghost use Rattle.au_change.specs.Inside.{AreSettings, set_trees};
ghost use Rattle.au_change.specs.Updating as spec;
ghost use Rattle.au_change.specs.Updating.{is_referenced};
ghost use Rattle.au_choose.specs.Choosing.{conditions_over, where_kind};
ghost use Rattle.au_expr.specs.Ranges.{names_column};
ghost use Rattle.au_expr.specs.Resolving.{condition_code, placed};
ghost use Rattle.au_modify.specs.Columns.{is_called};

use crate::settings::Setting;
use crate::updating::Asked;
use au_base::{Column, List, Memory, Name};
use au_expr::{Resolved, resolve_condition};
use sql_ast::{Assignment, Expr};
use std::alloc::Global;
use std::slice;

/// The columns that are set, or that an expression names, in the table's order.
pub(crate) fn referenced(
    alloc: Global,
    asked: &Asked<'_>,
    settings: &[Setting<'_>],
) -> Result<List<Name>, Memory>
    requires kind { where_kind asked.now.range.now asked.now.update.now.condition ≡ None }
    requires settings { AreSettings asked.now.range.now asked.now.update.now.assignments settings.now }
    ensures { IfOk result (λ names. names ≡ spec.referenced asked.now.range.now asked.now.update.now) }
{
    let conditions = conditions(alloc, asked.range, &asked.update.condition)?;
    let mut names = List::new(alloc);
    for (number, column) in asked.range.1.as_slice().iter().enumerate() {
        if is_named(asked, settings, conditions.as_slice(), number, column) {
            names.push(column.name.clone()?)?;
        }
    }
    Ok(names)
}

fn conditions(
    alloc: Global,
    range: &(Name, List<Column>),
    condition: &Option<Expr>,
) -> Result<Vec<Resolved>, Memory>
    requires { where_kind range.now condition.now ≡ None }
    ensures { IfOk result (λ trees. trees.items ≡ conditions_over range.now condition.now) }
{
    match condition {
        Some(condition) => condition_trees(alloc, range, condition),
        None => Ok(Vec::new(alloc)),
    }
}

fn condition_trees(
    alloc: Global,
    range: &(Name, List<Column>),
    condition: &Expr,
) -> Result<Vec<Resolved>, Memory>
    requires { condition_code (range.now ∷ []) condition.now ≡ None }
    ensures { IfOk result (λ trees. trees.items ≡ placed (range.now ∷ []) condition.now ∷ []) }
{
    let ranges = slice::from_ref(range);
    let mut trees = Vec::new(alloc);
    match resolve_condition(alloc, condition, ranges)? {
        Ok(tree) => {
            trees.push(tree)?;
            Ok(trees)
        }
        Err(_) => Ok(trees),
    }
}

fn is_named(
    asked: &Asked<'_>,
    settings: &[Setting<'_>],
    conditions: &[Resolved],
    number: usize,
    column: &Column,
) -> bool
    requires settings { AreSettings asked.now.range.now asked.now.update.now.assignments settings.now }
    requires conditions { conditions.now ≡ conditions_over asked.now.range.now asked.now.update.now.condition }
    ensures { result ≡ is_referenced asked.now.range.now asked.now.update.now (number, column.now) }
{
    is_named_by(
        asked.update.assignments.as_slice(),
        settings,
        conditions,
        number,
        column,
    )
}

fn is_named_by(
    assignments: &[Assignment],
    settings: &[Setting<'_>],
    conditions: &[Resolved],
    number: usize,
    column: &Column,
) -> bool
    ensures { result ≡ (list_any (λ name. is_called name column.now) (map (λ assignment. assignment.column) assignments.now) || (list_any (names_column 0 number) (set_trees settings.now) || list_any (names_column 0 number) conditions.now)) }
{
    is_set(assignments, column)
        || is_in_settings(settings, number)
        || is_in_conditions(conditions, number)
}

fn is_set(assignments: &[Assignment], column: &Column) -> bool
    ensures { result ≡ list_any (λ name. is_called name column.now) (map (λ assignment. assignment.column) assignments.now) }
{
    for assignment in assignments {
        if column.name == assignment.column {
            return true;
        }
    }
    false
}

fn is_in_settings(settings: &[Setting<'_>], number: usize) -> bool
    ensures { result ≡ list_any (names_column 0 number) (set_trees settings.now) }
{
    for setting in settings {
        if setting.value.names_column(0, number) {
            return true;
        }
    }
    false
}

fn is_in_conditions(conditions: &[Resolved], number: usize) -> bool
    ensures { result ≡ list_any (names_column 0 number) conditions.now }
{
    for condition in conditions {
        if condition.names_column(0, number) {
            return true;
        }
    }
    false
}
