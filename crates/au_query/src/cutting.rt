//! Conditions that are told early, over the rows of the first tables alone.
ghost use Rattle.std.specs.Prelude.{◌≡◌, ◌≤◌, ◌<◌, ◌+◌, ◌++◌, ◌∷◌, ℕ, List, [], false, IfOk, IsTrue, length};
ghost use Rattle.std.specs.List.{AllByRecursion, list_all, list_any};
ghost use Rattle.au_base.specs.Limits as limits;
ghost use Rattle.au_expr.specs.declared.placed.Placed.{Placed};
ghost use Rattle.au_expr.specs.Placing.{value_at};
ghost use Rattle.au_expr.specs.Ranges.{names_range};
ghost use Rattle.au_expr.specs.Values as values;
ghost use Rattle.au_query.specs.Combos.{Line, cells_of, passes, views};
ghost use Rattle.au_query.specs.descent.Inside.{AreMetTogether, IsReach, gathered, refuses, trees_in_tests};

use crate::Source;
use crate::scan::is_met;
use au_base::Memory;
use au_base::limits::FROM_TABLES;
use au_expr::{
    Placed, Resolved, Row, SessionFacts, named_ranges_suffice, names_range, parts_of_and_are_met,
};
use std::alloc::Global;
use std::slice;

/// A condition, and of how many tables of FROM, from the first one on, it needs the rows.
#[derive(Drop)]
pub struct Test<'p> {
    pub condition: &'p Placed,
    pub reach: usize,
}

/// The conditions, each with the tables that it needs; in place of one in which AND joins conditions,
/// these.
pub fn tests<'p>(alloc: Global, conditions: &'p [Resolved]) -> Result<Vec<Test<'p>>, Memory>
    ensures trees { IfOk result (λ tests. AreMetTogether (trees_in_tests tests.items) conditions.now) }
    ensures reach { IfOk result (λ tests. AllByRecursion IsReach tests.items) }
{
    let mut tests = Vec::new(alloc);
    for condition in conditions {
        push_each(&mut tests, parts_of(condition.tree()))?;
    }
    Ok(tests)
}

/// The conditions that AND joins in the tree, or the tree alone.
pub fn parts_of(tree: &Placed) -> &[Placed]
    ensures { AreMetTogether result.now (tree.now ∷ []) }
{
    parts_of_and_are_met();
    match tree {
        Placed::And(parts) => parts.as_slice(),
        _ => slice::from_ref(tree),
    }
}

fn push_each<'p>(tests: &mut Vec<Test<'p>>, trees: &'p [Placed]) -> Result<(), Memory>
    requires { AllByRecursion IsReach tests.old.items }
    ensures trees { IfOk result (λ done. trees_in_tests tests.new.items ≡ trees_in_tests tests.old.items ++ trees.now) }
    ensures reach { IfOk result (λ done. AllByRecursion IsReach tests.new.items) }
{
    for tree in trees {
        tests.push(test_of(tree))?;
    }
    Ok(())
}

fn test_of(condition: &Placed) -> Test<'_>
    ensures tree { result.condition.now ≡ condition.now }
    ensures reach { IsReach result }
{
    Test {
        condition,
        reach: reach(condition),
    }
}

// How many tables from the first one on there are up to the last one that it names.
fn reach(condition: &Placed) -> usize
    ensures { (range : ℕ) → result ≤ range → range < limits.FROM_TABLES → names_range range condition.now ≡ false }
{
    let mut reach = 0;
    for range in 0..FROM_TABLES {
        if names_range(condition, range) {
            reach = range + 1;
        }
    }
    reach
}

/// Whether no combination that begins with these rows of the first tables passes, since a condition
/// isn't Yes over them that needs no more. It is asked of nothing where there are no more tables.
pub fn is_cut(
    tests: &[Test<'_>],
    session: &SessionFacts,
    row: &Row<'_>,
    sources: &[Source<'_>],
) -> bool
    requires few { length row.now + length sources.now ≤ limits.FROM_TABLES }
    requires reach { AllByRecursion IsReach tests.now }
    ensures { IsTrue result → (front : List Line) → row.now ≡ cells_of front
        → gathered (passes session.now (trees_in_tests tests.now)) front (views sources.now) ≡ [] }
{
    named_ranges_suffice();
    !sources.is_empty() && is_refused(tests, session, row)
}

// Whether a condition that needs just these rows isn't Yes over them.
fn is_refused(tests: &[Test<'_>], session: &SessionFacts, row: &Row<'_>) -> bool
    ensures { result ≡ list_any (refuses session.now row.now) tests.now }
{
    for test in tests {
        if test.reach == row.len() && !is_met(test.condition, session, row) {
            return true;
        }
    }
    false
}

/// Whether each condition is Yes over a row.
pub fn are_passed(tests: &[Test<'_>], session: &SessionFacts, row: &Row<'_>) -> bool
    ensures { result ≡ list_all (λ (tree : Placed). values.is_met (value_at row.now session.now tree)) (trees_in_tests tests.now) }
{
    for test in tests {
        if !is_met(test.condition, session, row) {
            return false;
        }
    }
    true
}
