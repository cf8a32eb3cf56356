//! Tests of rows.
ghost use Rattle.std.specs.Prelude.{◌≡◌, ◌∷◌, [], IfOk};
ghost use Rattle.au_audit.specs.Conditions as conditions;
ghost use Rattle.au_expr.specs.Resolving.{IsCondition};
ghost use Rattle.au_fga.specs.Testing.{range_of};
ghost use Rattle.au_fga.specs.descent.Comparing.{Decides, passes};
ghost use Rattle.au_fga.specs.descent.Rows.{is_met_at, some_lent};

use crate::comparing::{Comparison, comparison_of, one_compares};
use crate::touching::is_some_row;
use au_base::{Cell, Memory, Truth};
use au_entries::Table;
use au_expr::{Resolved, Row, SessionFacts, names_or_places, resolve_condition, truth};
use sql_ast::Expr;
use std::alloc::Global;

/// How the rows of a table are tested.
#[derive(Drop)]
pub enum Test<'a> {
    /// Each passes.
    Every,
    /// By one comparison of a cell, without the condition's tree.
    Compared(Comparison<'a>),
    /// By any other condition.
    Resolved(Resolved),
}

/// The test of a condition on the table.
pub fn test_of<'a>(alloc: Global, tree: &'a Expr, table: &Table) -> Result<Test<'a>, Memory>
    requires { IsCondition (range_of table.now ∷ []) tree.now }
    ensures { IfOk result (λ test. Decides table.now tree.now (λ session. passes session test)) }
{
    match comparison_of(tree, table) {
        Some(comparison) => Ok(Test::Compared(comparison)),
        None => {
            let resolved = resolved_over(alloc, tree, table)?;
            Ok(Test::Resolved(resolved))
        }
    }
}

fn resolved_over(alloc: Global, tree: &Expr, table: &Table) -> Result<Resolved, Memory>
    requires { IsCondition (range_of table.now ∷ []) tree.now }
    ensures { IfOk result (λ resolved. Decides table.now tree.now (λ session. is_met_at session resolved)) }
{
    names_or_places();
    let range = (table.name.name.clone()?, table.columns.clone()?);
    match resolve_condition(alloc, tree, &[range])? {
        Ok(resolved) => Ok(resolved),
        Err(_) => unreachable!(),
    }
}

/// Whether one of the rows passes the test. Nothing is allocated for a row.
pub fn one_passes(test: &Test<'_>, rows: &[&[Cell]], session: &SessionFacts) -> bool
    ensures { result ≡ some_lent (passes session.now test.now) rows.now }
{
    match test {
        Test::Every => is_some_row(rows),
        Test::Compared(comparison) => one_compares(*comparison, rows),
        Test::Resolved(resolved) => one_meets(resolved, rows, session),
    }
}

fn one_meets(resolved: &Resolved, rows: &[&[Cell]], session: &SessionFacts) -> bool
    ensures { result ≡ some_lent (is_met_at session.now resolved.now) rows.now }
{
    rows.iter().any(|cells| meets_at(resolved, cells, session))
}

// Whether the condition is Yes over the row. One that overflows isn't.
fn meets_at(resolved: &Resolved, cells: &[Cell], session: &SessionFacts) -> bool
    ensures { result ≡ is_met_at session.now resolved.now cells.now }
{
    let mut row = Row::new();
    row.push(cells);
    match truth(resolved, &row, session) {
        Ok(found) => is_yes(found),
        Err(_) => false,
    }
}

fn is_yes(truth: Truth) -> bool
    ensures { result ≡ conditions.is_yes truth }
{
    match truth {
        Truth::Yes => true,
        Truth::No | Truth::Unknown => false,
    }
}
