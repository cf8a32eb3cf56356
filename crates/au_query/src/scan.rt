//! The scan of the combinations of rows.
ghost use Rattle.std.specs.Prelude.{◌≡◌, ◌≤◌, ◌+◌, ◌++◌, [], true, IfOk, IfSome, MatchOption, ◌<◌, length};
ghost use Rattle.std.specs.List.{AllByRecursion, list_all};
ghost use Rattle.au_base.specs.Limits as limits;
ghost use Rattle.au_expr.specs.declared.placed.Placed.{Placed};
ghost use Rattle.au_expr.specs.Placing.{value_at};
ghost use Rattle.au_expr.specs.Values as values;
ghost use Rattle.au_query.specs.Combos as spec;
ghost use Rattle.au_query.specs.Combos.{cells_of, passes, views};
ghost use Rattle.au_query.specs.descent.Residuals.{IsSieve};
ghost use Rattle.au_query.specs.descent.Inside.{IsKept, IsReach, gathered, trees_in_tests};

use crate::Source;
use crate::combo::Combo;
use crate::cutting::{Test, are_passed, is_cut};
use crate::residual::{Residual, is_left_out, sieve_of};
use crate::size::has_empty_table;
use au_base::limits::REPLY_ROWS;
use au_base::{Memory, Truth};
use au_expr::{Placed, Resolved, Row, SessionFacts, truth_at};
use std::alloc::Global;

/// The combinations over which each condition is Yes, in order. `None` where they are more than a
/// reply may have. Nothing is allocated for a combination that is refused; where a condition that names
/// the first tables alone isn't Yes over their rows, none that begins with them is gone through; and
/// where a table has no row, none at all.
pub fn combos<'a>(
    alloc: Global,
    tests: &[Test<'_>],
    session: &SessionFacts,
    sources: &[Source<'a>],
) -> Result<Option<Vec<Combo<'a>>>, Memory>
    requires few { length sources.now ≤ limits.FROM_TABLES }
    requires reach { AllByRecursion IsReach tests.now }
    ensures { IfOk result (λ found. MatchOption found
        (limits.REPLY_ROWS < length (spec.combos session.now (trees_in_tests tests.now) (views sources.now)))
        (λ kept. (kept.items ≡ spec.combos session.now (trees_in_tests tests.now) (views sources.now)) × (length (spec.combos session.now (trees_in_tests tests.now) (views sources.now)) ≤ limits.REPLY_ROWS))) }
{
    let mut kept = Vec::new(alloc);
    if has_empty_table(sources) {
        return Ok(Some(kept));
    }
    let mut front = Combo::new(alloc)?;
    let mut row = Row::new();
    if scan(
        alloc, tests, session, sources, &mut front, &mut row, &mut kept,
    )? {
        Ok(Some(kept))
    } else {
        Ok(None)
    }
}

#[tactic(auto, using(crate::proofs::Fronts::popped))]
fn scan<'a>(
    alloc: Global,
    tests: &[Test<'_>],
    session: &SessionFacts,
    sources: &[Source<'a>],
    front: &mut Combo<'a>,
    row: &mut Row<'a>,
    kept: &mut Vec<Combo<'a>>,
) -> Result<bool, Memory>
    requires few { length front.old + length sources.now ≤ limits.FROM_TABLES }
    requires cells { row.old ≡ cells_of front.old }
    requires room { length kept.old.items ≤ limits.REPLY_ROWS }
    requires reach { AllByRecursion IsReach tests.now }
    ensures front { IfOk result (λ all. all ≡ true → front.new ≡ front.old) }
    ensures row { IfOk result (λ all. all ≡ true → row.new ≡ row.old) }
    ensures kept { IfOk result (λ all. IsKept all kept.new.items (kept.old.items ++ gathered (passes session.now (trees_in_tests tests.now)) front.old (views sources.now))) }
{
    if is_cut(tests, session, row, sources) {
        return Ok(true);
    }
    match sources.split_first() {
        None => keep(alloc, tests, session, front, row, kept),
        Some((source, rest)) => {
            let sieve = last_sieve(tests, row, rest);
            for (number, cells) in source.rows.as_slice() {
                if is_left_out(sieve, *cells) {
                    continue;
                }
                front.push(*number, *cells)?;
                row.push(*cells);
                if !scan(alloc, tests, session, rest, front, row, kept)? {
                    return Ok(false);
                }
                row.pop();
                front.pop();
            }
            Ok(true)
        }
    }
}

// What is left over the last table of the first condition, ON and WHERE parted at AND, of which
// something is left that isn't Yes over whatever row. `None` where there are further tables.
fn last_sieve(tests: &[Test<'_>], row: &Row<'_>, rest: &[Source<'_>]) -> Option<Residual>
    ensures sieve { IfSome result (IsSieve (trees_in_tests tests.now) row.now) }
    ensures last { IfSome result (λ residual. views rest.now ≡ []) }
{
    match rest.split_first() {
        None => sieve_of(tests, row),
        Some(_) => None,
    }
}

// Keeps the combination where each condition is Yes over it and a reply may have it.
fn keep<'a>(
    alloc: Global,
    tests: &[Test<'_>],
    session: &SessionFacts,
    front: &Combo<'a>,
    row: &Row<'a>,
    kept: &mut Vec<Combo<'a>>,
) -> Result<bool, Memory>
    requires cells { row.now ≡ cells_of front.now }
    requires room { length kept.old.items ≤ limits.REPLY_ROWS }
    ensures kept { IfOk result (λ all. IsKept all kept.new.items (kept.old.items ++ gathered (passes session.now (trees_in_tests tests.now)) front.now [])) }
{
    if !are_passed(tests, session, row) {
        return Ok(true);
    }
    if kept.len() >= REPLY_ROWS {
        return Ok(false);
    }
    kept.push(front.copied(alloc)?)?;
    Ok(true)
}

/// Whether each condition is Yes over a row.
pub fn are_met(conditions: &[Resolved], session: &SessionFacts, row: &Row<'_>) -> bool
    ensures { result ≡ list_all (λ (tree : Placed). values.is_met (value_at row.now session.now tree)) conditions.now }
{
    for condition in conditions {
        if !is_met(condition.tree(), session, row) {
            return false;
        }
    }
    true
}

/// Whether a condition is Yes over a row.
pub fn is_met(condition: &Placed, session: &SessionFacts, row: &Row<'_>) -> bool
    ensures { result ≡ values.is_met (value_at row.now session.now condition.now) }
{
    match truth_at(condition, row, session) {
        Ok(Truth::Yes) => true,
        _ => false,
    }
}
