//! SELECT.
ghost use Rattle.std.specs.Prelude.{◌≡◌, ◌≤◌, ◌<◌, ◌++◌, ◌∷◌, [], IfOk, MatchOption, length};
ghost use Rattle.au_base.specs.Limits as limits;
ghost use Rattle.au_query.specs.Answers.{Comes, IsDone, IsReply, IsSelected};
ghost use Rattle.au_query.specs.Combos as spec;
ghost use Rattle.au_query.specs.Combos.{AreSoundRows, combos as combos_of, views};
ghost use Rattle.au_query.specs.descent.Outputs.{tree_of, trees_in};
ghost use Rattle.au_query.specs.descent.Plans.{IsPlanOf, run_refusal};
ghost use Rattle.au_query.specs.Queries.{query_of};

use crate::combo::Combo;
use crate::cutting::tests;
use crate::naming::named;
use crate::output::Output;
use crate::overflow::overflows_somewhere;
use crate::planning::{Plan, planned};
use crate::ranking::put_in_order;
use crate::reply::{column_names, rows};
use crate::scan::combos;
use crate::size::combinations;
use crate::touching::touched;
use crate::{Selected, Source};
use au_base::limits::FROM_TABLES;
use au_base::{Code, Column, List, Memory, Name, Reply};
use au_expr::{Resolved, SessionFacts};
use sql_ast::Select;
use std::alloc::Global;

/// What a SELECT gives over the tables of its FROM, which are there and allowed: `ranges` has the
/// name of each, its alias where it has one, and its columns. The code is the first of these: 99001
/// over 8 tables; 904 and 918 in written order; 932 in written order; 99001 over 10,000,000
/// combinations; 1426 where ON, WHERE or an item overflows over any combination; 99002 over 100,000
/// rows.
pub fn select(
    alloc: Global,
    sources: &[Source<'_>],
    ranges: &[(Name, List<Column>)],
    session: &SessionFacts,
    select: &Select,
) -> Result<Selected, Memory>
    requires ranges { length ranges.now ≡ length sources.now }
    requires sound { AreSoundRows (views sources.now) }
    ensures { IfOk result (IsSelected session.now ranges.now sources.now select.now) }
{
    if ranges.len() > FROM_TABLES {
        return Ok(Selected::refused(alloc, Code::TOO_MANY_COMBINATIONS));
    }
    match planned(alloc, select, ranges)? {
        Ok(plan) => {
            let selected = run(alloc, sources, ranges, session, select, &plan)?;
            Ok(selected)
        }
        Err(code) => Ok(Selected::refused(alloc, code)),
    }
}

// What comes of a query that no name and no kind refuses.
fn run(
    alloc: Global,
    sources: &[Source<'_>],
    ranges: &[(Name, List<Column>)],
    session: &SessionFacts,
    select: &Select,
    plan: &Plan,
) -> Result<Selected, Memory>
    requires few { length sources.now ≤ limits.FROM_TABLES }
    requires sound { AreSoundRows (views sources.now) }
    requires plan { IsPlanOf ranges.now select.now plan.now }
    ensures { IfOk result (Comes (run_refusal session.now (query_of ranges.now select.now) (views sources.now)) (IsDone session.now ranges.now sources.now select.now)) }
{
    if combinations(sources).is_none() {
        return Ok(Selected::refused(alloc, Code::TOO_MANY_COMBINATIONS));
    }
    if overflows(plan, session, sources) {
        return Ok(Selected::refused(alloc, Code::OVERFLOW));
    }
    match passing(alloc, sources, session, plan)? {
        Some(combos) => {
            let selected = answer(alloc, sources, ranges, session, select, plan, combos)?;
            Ok(selected)
        }
        None => Ok(Selected::refused(alloc, Code::TOO_MANY_ROWS)),
    }
}

// The combinations over which each condition is Yes, in order. `None` where they are more than a
// reply may have.
fn passing<'a>(
    alloc: Global,
    sources: &[Source<'a>],
    session: &SessionFacts,
    plan: &Plan,
) -> Result<Option<Vec<Combo<'a>>>, Memory>
    requires { length sources.now ≤ limits.FROM_TABLES }
    ensures { IfOk result (λ found. MatchOption found
        (limits.REPLY_ROWS < length (combos_of session.now plan.now.conditions.items (views sources.now)))
        (λ kept. (kept.items ≡ combos_of session.now plan.now.conditions.items (views sources.now)) × (length (combos_of session.now plan.now.conditions.items (views sources.now)) ≤ limits.REPLY_ROWS))) }
{
    let tests = tests(alloc, plan.conditions.as_slice())?;
    let found = combos(alloc, tests.as_slice(), session, sources)?;
    Ok(found)
}

fn overflows(plan: &Plan, session: &SessionFacts, sources: &[Source<'_>]) -> bool
    requires few { length sources.now ≤ limits.FROM_TABLES }
    requires sound { AreSoundRows (views sources.now) }
    ensures { result ≡ spec.overflows session.now (plan.now.conditions.items ++ trees_in plan.now.outputs.items) (views sources.now) }
{
    conditions_overflow(plan.conditions.as_slice(), session, sources)
        || outputs_overflow(plan.outputs.as_slice(), session, sources)
}

/// Whether one of the conditions overflows over some combination.
pub fn conditions_overflow(
    conditions: &[Resolved],
    session: &SessionFacts,
    sources: &[Source<'_>],
) -> bool
    requires few { length sources.now ≤ limits.FROM_TABLES }
    requires sound { AreSoundRows (views sources.now) }
    ensures { result ≡ spec.overflows session.now conditions.now (views sources.now) }
{
    for condition in conditions {
        if overflows_somewhere(condition, session, sources) {
            return true;
        }
    }
    false
}

fn outputs_overflow(outputs: &[Output], session: &SessionFacts, sources: &[Source<'_>]) -> bool
    requires few { length sources.now ≤ limits.FROM_TABLES }
    requires sound { AreSoundRows (views sources.now) }
    ensures { result ≡ spec.overflows session.now (trees_in outputs.now) (views sources.now) }
{
    for output in outputs {
        if output_overflows(output, session, sources) {
            return true;
        }
    }
    false
}

fn output_overflows(output: &Output, session: &SessionFacts, sources: &[Source<'_>]) -> bool
    requires few { length sources.now ≤ limits.FROM_TABLES }
    requires sound { AreSoundRows (views sources.now) }
    ensures { result ≡ spec.overflows_anywhere session.now (views sources.now) (tree_of output.now) }
{
    match output {
        Output::Column(_place) => false,
        Output::Value(computed) => overflows_somewhere(computed.expr(), session, sources),
    }
}

// What a query gives that nothing refuses, from the combinations that pass.
fn answer(
    alloc: Global,
    sources: &[Source<'_>],
    ranges: &[(Name, List<Column>)],
    session: &SessionFacts,
    select: &Select,
    plan: &Plan,
    combos: Vec<Combo<'_>>,
) -> Result<Selected, Memory>
    requires plan { IsPlanOf ranges.now select.now plan.now }
    requires combos { combos.items ≡ combos_of session.now (query_of ranges.now select.now).conditions (views sources.now) }
    ensures { IfOk result (IsDone session.now ranges.now sources.now select.now) }
{
    let touched = touched(alloc, combos.as_slice(), sources)?;
    let named = named(alloc, plan, ranges, sources)?;
    let reply = reply(alloc, ranges, session, select, plan, combos)?;
    Ok(Selected {
        code: Code::DONE,
        reply,
        touched,
        named,
    })
}

fn reply(
    alloc: Global,
    ranges: &[(Name, List<Column>)],
    session: &SessionFacts,
    select: &Select,
    plan: &Plan,
    combos: Vec<Combo<'_>>,
) -> Result<Reply, Memory>
    requires plan { IsPlanOf ranges.now select.now plan.now }
    ensures { IfOk result (IsReply session.now ranges.now combos.entry.items select.now) }
{
    let mut combos = combos;
    put_in_order(&mut combos, plan.keys.as_slice())?;
    let columns = column_names(alloc, &select.items, ranges)?;
    let rows = rows(alloc, plan.outputs.as_slice(), session, combos.as_slice())?;
    Ok(Reply {
        code: Code::DONE,
        columns,
        count: rows.len() as u64,
        rows,
    })
}
