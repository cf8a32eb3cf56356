//! UPDATE.
ghost use Rattle.std.specs.Prelude.{◌≡◌, ◌∷◌, [], IfOk, IsTrue, MatchResult, None, Some, map};
ghost use Rattle.std.specs.List.{AllByRecursion};
ghost use Rattle.au_change.specs.Behind.{BehindChoice, BehindRows, IsAsked, sight_in};
ghost use Rattle.au_change.specs.Inside.{AreSettings, IsKnown, back_refusal, front_refusal};
ghost use Rattle.au_change.specs.Updating.{IsUpdate, targets, text_refusal, updates, values};
ghost use Rattle.au_choose.specs.Choosing.{chosen_in, where_kind, where_name};
ghost use Rattle.au_expr.specs.Names.{or_code};
ghost use Rattle.au_modify.specs.Targets as rules;
ghost use Rattle.au_query.specs.Combos.{lines};
ghost use Rattle.au_txn.specs.Desks.{laid_by};
ghost use Rattle.au_world.specs.BuiltInTables.{kind_of};
ghost use Rattle.au_world.specs.Sights.{has_table, sight_of};
ghost use Rattle.au_world.specs.Sound.{IsSoundFor};
ghost use Rattle.au_world.specs.declared.built_in.TableKind.TheVariants.{Created};

use crate::changing::{Sets, changes};
use crate::key_rules::key_refusal;
use crate::referring::referenced;
use crate::settings::{Setting, settings, sources};
use au_base::{Cell, ClientNo, Code, Column, List, Memory, Name, RowNo, TableName};
use au_choose::{choose, range_in, where_kind_code, where_name_code};
use au_expr::{SessionFacts, name_code};
use au_modify::{Modification, kinds_are_told_one_by_one, target_refusal, targets_are_columns};
use au_txn::RowChange;
use au_world::World;
use sql_ast::{Assignment, Update};
use std::alloc::Global;
use std::slice;

/// An UPDATE of a client, with the range of its table.
#[derive(Clone, Copy)]
pub struct Asked<'q> {
    pub world: World<'q>,
    pub client: ClientNo,
    pub session: &'q SessionFacts,
    pub table: &'q TableName,
    pub range: &'q (Name, List<Column>),
    pub update: &'q Update,
}

/// What a client's UPDATE comes to, whose user may update the table. Only rows that it chooses are
/// copied, and what it sets is resolved once.
pub fn update(
    alloc: Global,
    world: &World<'_>,
    client: ClientNo,
    session: &SessionFacts,
    table: &TableName,
    update: &Update,
) -> Result<Modification, Memory>
    requires sound { IsSoundFor world.now client }
    requires there { IsTrue (has_table world.now.catalog.now.tables table.now) }
    requires created { kind_of table.now ≡ Created }
    requires laid { laid_by client world.now.desk.now.laid ≡ [] }
    ensures { IfOk result (IsUpdate (sight_of world.now client) client session.now table.now update.now) }
{
    let range = range_in(alloc, world, table)?;
    let asked = Asked {
        world: *world,
        client,
        session,
        table,
        range: &range,
        update,
    };
    match read(alloc, &range, update)? {
        Ok(settings) => after_text(alloc, &asked, settings.as_slice()),
        Err(code) => Ok(Modification::refused(alloc, code)),
    }
}

// What the UPDATE sets; or the first rule that its text breaks.
fn read<'a>(
    alloc: Global,
    range: &'a (Name, List<Column>),
    update: &Update,
) -> Result<Result<Vec<Setting<'a>>, Code>, Memory>
    ensures { IfOk result (λ found. MatchResult found (λ settings. (text_refusal range.now update.now ≡ None) × AreSettings range.now update.now.assignments settings.items) (λ code. text_refusal range.now update.now ≡ Some code)) }
{
    kinds_are_told_one_by_one();
    match front_code(alloc, range, update)? {
        Some(code) => Ok(Err(code)),
        None => read_kinds(alloc, range, update),
    }
}

// The rules that come before 932.
fn front_code(
    alloc: Global,
    range: &(Name, List<Column>),
    update: &Update,
) -> Result<Option<Code>, Memory>
    ensures front { IfOk result (λ code. code ≡ front_refusal range.now update.now) }
    ensures known { IfOk result (λ code. code ≡ None → AllByRecursion (IsKnown range.now.1) update.now.assignments) }
{
    targets_are_columns();
    let names = target_names(alloc, update.assignments.as_slice())?;
    match target_refusal(range.1.as_slice(), names.as_slice()) {
        Some(code) => Ok(Some(code)),
        None => Ok(texts_code(range, update)),
    }
}

fn target_names(alloc: Global, assignments: &[Assignment]) -> Result<Vec<Name>, Memory>
    ensures { IfOk result (λ names. names.items ≡ map (λ assignment. assignment.column) assignments.now) }
{
    let mut names = Vec::new(alloc);
    for assignment in assignments {
        names.push(assignment.column.clone()?)?;
    }
    Ok(names)
}

// 904 of the expressions, WHERE the last.
fn texts_code(range: &(Name, List<Column>), update: &Update) -> Option<Code>
    ensures { result ≡ or_code (rules.names_refusal (range.now ∷ []) (values update.now)) (where_name range.now update.now.condition) }
{
    match values_code(slice::from_ref(range), update.assignments.as_slice()) {
        Some(code) => Some(code),
        None => where_name_code(&update.condition, range),
    }
}

fn values_code(ranges: &[(Name, List<Column>)], assignments: &[Assignment]) -> Option<Code>
    ensures { result ≡ rules.names_refusal ranges.now (map (λ assignment. assignment.value) assignments.now) }
{
    for assignment in assignments {
        if let Some(code) = name_code(&assignment.value, ranges) {
            return Some(code);
        }
    }
    None
}

// What the UPDATE sets; or 932, that of WHERE the last.
fn read_kinds<'a>(
    alloc: Global,
    range: &'a (Name, List<Column>),
    update: &Update,
) -> Result<Result<Vec<Setting<'a>>, Code>, Memory>
    requires known { AllByRecursion (IsKnown range.now.1) update.now.assignments }
    ensures { IfOk result (λ found. MatchResult found (λ settings. (back_refusal range.now update.now ≡ None) × AreSettings range.now update.now.assignments settings.items) (λ code. back_refusal range.now update.now ≡ Some code)) }
{
    match settings(alloc, range, update.assignments.as_slice())? {
        Ok(settings) => match where_kind_code(&update.condition, range) {
            Some(code) => Ok(Err(code)),
            None => Ok(Ok(settings)),
        },
        Err(code) => Ok(Err(code)),
    }
}

// What comes of an UPDATE whose text breaks no rule.
fn after_text(
    alloc: Global,
    asked: &Asked<'_>,
    settings: &[Setting<'_>],
) -> Result<Modification, Memory>
    requires asked { IsAsked asked.now }
    requires text { text_refusal asked.now.range.now asked.now.update.now ≡ None }
    requires kind { where_kind asked.now.range.now asked.now.update.now.condition ≡ None }
    requires settings { AreSettings asked.now.range.now asked.now.update.now.assignments settings.now }
    ensures { IfOk result (IsUpdate (sight_in asked.now) asked.now.client asked.now.session.now asked.now.table.now asked.now.update.now) }
{
    match choose(
        alloc,
        &asked.world,
        asked.client,
        asked.session,
        asked.table,
        asked.range,
        &asked.update.condition,
    )? {
        Ok(rows) => after_choice(alloc, asked, settings, rows.as_slice()),
        Err(code) => Ok(Modification::refused(alloc, code)),
    }
}

// What comes of one whose rows are chosen, of which none is locked.
fn after_choice(
    alloc: Global,
    asked: &Asked<'_>,
    settings: &[Setting<'_>],
    rows: &[(RowNo, &[Cell])],
) -> Result<Modification, Memory>
    requires asked { IsAsked asked.now }
    requires kind { where_kind asked.now.range.now asked.now.update.now.condition ≡ None }
    requires settings { AreSettings asked.now.range.now asked.now.update.now.assignments settings.now }
    requires chosen { lines rows.now ≡ chosen_in (sight_in asked.now) asked.now.session.now asked.now.table.now asked.now.update.now.condition }
    ensures { IfOk result (BehindChoice asked.now) }
{
    let sources = sources(
        alloc,
        asked.range.1.as_slice(),
        asked.update.assignments.as_slice(),
    )?;
    let sets = Sets {
        table: asked.table,
        session: asked.session,
        settings,
        sources: sources.as_slice(),
    };
    match changes(alloc, &sets, rows)? {
        Ok(changes) => after_rows(alloc, asked, settings, changes),
        Err(code) => Ok(Modification::refused(alloc, code)),
    }
}

// What comes of one whose changes are these.
fn after_rows(
    alloc: Global,
    asked: &Asked<'_>,
    settings: &[Setting<'_>],
    changes: List<RowChange>,
) -> Result<Modification, Memory>
    requires asked { IsAsked asked.now }
    requires kind { where_kind asked.now.range.now asked.now.update.now.condition ≡ None }
    requires settings { AreSettings asked.now.range.now asked.now.update.now.assignments settings.now }
    requires changes { changes ≡ updates (sight_in asked.now) asked.now.session.now asked.now.table.now asked.now.update.now }
    ensures { IfOk result (BehindRows asked.now) }
{
    match key_refusal(alloc, asked, changes.as_slice())? {
        Some(code) => Ok(Modification::refused(alloc, code)),
        None => Ok(Modification {
            code: Code::DONE,
            changes,
            named: referenced(alloc, asked, settings)?,
        }),
    }
}
