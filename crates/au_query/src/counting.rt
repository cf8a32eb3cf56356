//! SELECT COUNT(*).
ghost use Rattle.std.specs.Prelude.{◌≡◌, ◌≤◌, ◌∷◌, [], IfOk, IfSome, filter, length, map};
ghost use Rattle.std.specs.Option.{option_to_list};
ghost use Rattle.au_base.specs.Codes.{DONE};
ghost use Rattle.au_base.specs.Limits as limits;
ghost use Rattle.au_expr.specs.Resolving.{placed};
ghost use Rattle.au_query.specs.Answers.{Comes, named_by};
ghost use Rattle.au_query.specs.Combos as combos;
ghost use Rattle.au_query.specs.Combos.{AreSoundRows, Line, lines, rows_of};
ghost use Rattle.au_query.specs.Counts as spec;
ghost use Rattle.au_query.specs.Counts.{IsCounted, IsTally, numbers_of, passing_rows, tally_refusal, where_refusal};
ghost use Rattle.au_query.specs.descent.Plans.{Finds};
ghost use Rattle.au_query.specs.descent.Residuals.{AreLeft, IsResidual, are_met_by};

use crate::cutting::parts_of;
use crate::naming::named;
use crate::planning::{Plan, with_where};
use crate::query::conditions_overflow;
use crate::refusing::condition_code;
use crate::residual::{Residual, are_all_met, residual_of};
use crate::scan::are_met;
use crate::{Selected, Source};
use au_base::{Cell, Code, Column, List, Memory, Name, Reply, RowNo, Text};
use au_expr::{Placed, Resolved, Row, SessionFacts};
use sql_ast::Count;
use std::alloc::Global;
use std::slice;

/// The most rows that a COUNT goes over.
const MOST_ROWS: usize = 10_000_000;

/// What a COUNT gives over its table, which is there and allowed: `range` has the table's name, its
/// alias where it has one, and its columns. The code is the first of these: 904, then 932 of WHERE;
/// 99001 over 10,000,000 rows; 1426 where WHERE overflows over any row.
pub fn count(
    alloc: Global,
    source: &Source<'_>,
    range: &(Name, List<Column>),
    session: &SessionFacts,
    count: &Count,
) -> Result<Selected, Memory>
    requires { AreSoundRows (rows_of source.now ∷ []) }
    ensures { IfOk result (IsCounted session.now range.now source.now count.now) }
{
    match condition(alloc, count, slice::from_ref(range))? {
        Ok(conditions) => {
            let selected = counted(alloc, source, range, session, conditions)?;
            Ok(selected)
        }
        Err(code) => Ok(Selected::refused(alloc, code)),
    }
}

// WHERE, or its 904 and else its 932.
fn condition(
    alloc: Global,
    count: &Count,
    ranges: &[(Name, List<Column>)],
) -> Result<Result<Vec<Resolved>, Code>, Memory>
    ensures { IfOk result (Finds (where_refusal ranges.now count.now) (λ found. found.items ≡ map (placed ranges.now) (option_to_list count.now.condition))) }
{
    if let Some(code) = condition_code(&count.condition, ranges) {
        return Ok(Err(code));
    }
    let found = with_where(alloc, Vec::new(alloc), &count.condition, ranges)?;
    Ok(found)
}

// What comes of a COUNT that no name and no kind refuses.
fn counted(
    alloc: Global,
    source: &Source<'_>,
    range: &(Name, List<Column>),
    session: &SessionFacts,
    conditions: Vec<Resolved>,
) -> Result<Selected, Memory>
    requires { AreSoundRows (rows_of source.now ∷ []) }
    ensures { IfOk result (Comes (tally_refusal session.now conditions.items (rows_of source.now)) (IsTally session.now range.now source.now conditions.items)) }
{
    if source.rows.len() > MOST_ROWS {
        return Ok(Selected::refused(alloc, Code::TOO_MANY_COMBINATIONS));
    }
    if conditions_overflow(conditions.as_slice(), session, slice::from_ref(source)) {
        return Ok(Selected::refused(alloc, Code::OVERFLOW));
    }
    let numbers = passing(
        alloc,
        source.rows.as_slice(),
        session,
        conditions.as_slice(),
    )?;
    let selected = tally(alloc, source, range, conditions, numbers)?;
    Ok(selected)
}

// The numbers of the rows over which WHERE is Yes.
fn passing(
    alloc: Global,
    rows: &[(RowNo, &[Cell])],
    session: &SessionFacts,
    conditions: &[Resolved],
) -> Result<List<RowNo>, Memory>
    ensures { IfOk result (λ numbers. numbers ≡ numbers_of (passing_rows session.now conditions.now (lines rows.now))) }
{
    match comparisons(alloc, conditions)? {
        Some(comparisons) => compared(alloc, rows, comparisons.as_slice()),
        None => tested(alloc, rows, session, conditions),
    }
}

// What is left of WHERE, or of each condition that AND joins in it. `None` where there is no WHERE, or
// nothing is left of one of them.
fn comparisons(alloc: Global, conditions: &[Resolved]) -> Result<Option<Vec<Residual>>, Memory>
    ensures { IfOk result (λ found. IfSome found (λ residuals. AreLeft conditions.now residuals.items)) }
{
    match conditions {
        [condition] => comparisons_in(alloc, condition),
        _ => Ok(None),
    }
}

fn comparisons_in(alloc: Global, condition: &Resolved) -> Result<Option<Vec<Residual>>, Memory>
    ensures { IfOk result (λ found. IfSome found (λ residuals. AreLeft (condition.now ∷ []) residuals.items)) }
{
    let found = residuals_of(alloc, parts_of(condition.tree()))?;
    Ok(found)
}

fn residuals_of(alloc: Global, trees: &[Placed]) -> Result<Option<Vec<Residual>>, Memory>
    ensures { IfOk result (λ found. IfSome found (λ residuals. AreLeft trees.now residuals.items)) }
{
    let mut residuals = Vec::new(alloc);
    for tree in trees {
        match comparison_in(tree) {
            Some(comparison) => residuals.push(comparison)?,
            None => return Ok(None),
        }
    }
    Ok(Some(residuals))
}

fn comparison_in(tree: &Placed) -> Option<Residual>
    ensures { IfSome result (IsResidual [] tree.now) }
{
    let row = Row::new();
    residual_of(tree, &row)
}

fn compared(
    alloc: Global,
    rows: &[(RowNo, &[Cell])],
    comparisons: &[Residual],
) -> Result<List<RowNo>, Memory>
    ensures { IfOk result (λ numbers. numbers ≡ numbers_of (filter (λ (line : Line). are_met_by line.1 comparisons.now) (lines rows.now))) }
{
    let mut numbers = List::new(alloc);
    for (number, cells) in rows {
        if are_all_met(comparisons, *cells) {
            numbers.push(*number)?;
        }
    }
    Ok(numbers)
}

fn tested(
    alloc: Global,
    rows: &[(RowNo, &[Cell])],
    session: &SessionFacts,
    conditions: &[Resolved],
) -> Result<List<RowNo>, Memory>
    ensures { IfOk result (λ numbers. numbers ≡ numbers_of (passing_rows session.now conditions.now (lines rows.now))) }
{
    let mut row = Row::new();
    let mut numbers = List::new(alloc);
    for (number, cells) in rows {
        if passes(conditions, session, &mut row, *number, *cells) {
            numbers.push(*number)?;
        }
    }
    Ok(numbers)
}

// Whether WHERE is Yes over the row of this number. The row of cells is empty before and behind it.
#[tactic(auto, using(crate::proofs::Fronts::popped))]
fn passes<'a>(
    conditions: &[Resolved],
    session: &SessionFacts,
    row: &mut Row<'a>,
    number: RowNo,
    cells: &'a [Cell],
) -> bool
    requires { row.old ≡ [] }
    ensures row { row.new ≡ [] }
    ensures met { result ≡ combos.passes session.now conditions.now ((number, cells.now) ∷ []) }
{
    row.push(cells);
    let met = are_met(conditions, session, row);
    row.pop();
    met
}

// The one row of a COUNT, whose rows have these numbers.
fn tally(
    alloc: Global,
    source: &Source<'_>,
    range: &(Name, List<Column>),
    conditions: Vec<Resolved>,
    numbers: List<RowNo>,
) -> Result<Selected, Memory>
    requires { length numbers ≤ limits.COMBINATIONS }
    ensures { IfOk result (λ selected.
        (selected.code ≡ DONE) × (selected.reply ≡ spec.tally_reply (length numbers))
        × (selected.touched ≡ (source.now.table, numbers) ∷ [])
        × (selected.named ≡ named_by conditions.items (range.now ∷ []) (source.now ∷ []))) }
{
    let reply = tally_reply(alloc, numbers.len())?;
    let plan = Plan {
        conditions,
        outputs: Vec::new(alloc),
        keys: Vec::new(alloc),
    };
    let named = named(
        alloc,
        &plan,
        slice::from_ref(range),
        slice::from_ref(source),
    )?;
    let mut touched = List::new(alloc);
    touched.push((source.table.clone()?, numbers))?;
    Ok(Selected {
        code: Code::DONE,
        reply,
        touched,
        named,
    })
}

fn tally_reply(alloc: Global, count: usize) -> Result<Reply, Memory>
    requires { count ≤ limits.COMBINATIONS }
    ensures { IfOk result (λ reply. reply ≡ spec.tally_reply count) }
{
    let mut columns = List::new(alloc);
    columns.push(Text::from_str(alloc, "COUNT(*)")?)?;
    let mut row = List::new(alloc);
    row.push(Cell::Num(count as i64))?;
    let mut rows = List::new(alloc);
    rows.push(row)?;
    Ok(Reply {
        code: Code::DONE,
        columns,
        count: 1,
        rows,
    })
}
