//! What an UPDATE sets.
ghost use Rattle.std.specs.Prelude.{◌≡◌, ◌≢◌, ◌∷◌, [], IfOk, MatchResult, None, Some, map};
ghost use Rattle.std.specs.List.{AllByRecursion};
ghost use Rattle.au_change.specs.Inside.{AreSettings, IsKnown, IsSetting, IsValued, assignment_kind, setting_code, settings_cells, settings_code, set_value, source_of as place_of};
ghost use Rattle.au_expr.specs.Names.{first};
ghost use Rattle.au_expr.specs.Values.{cell_in};
ghost use Rattle.au_modify.specs.Columns.{column_called as column_of};

use au_base::{Cell, Code, Column, List, Memory, Name};
use au_expr::{Resolved, Row, SessionFacts, resolve_value, value};
use au_modify::{column_called, fit_code};
use sql_ast::Assignment;
use std::alloc::Global;
use std::slice;

/// A column that is set, and what it is set to.
#[derive(Drop)]
pub struct Setting<'a> {
    pub column: &'a Column,
    pub value: Resolved,
}

/// What the assignments set; or the first 932 of a value that isn't of the kind of its column.
pub(crate) fn settings<'a>(
    alloc: Global,
    range: &'a (Name, List<Column>),
    assignments: &[Assignment],
) -> Result<Result<Vec<Setting<'a>>, Code>, Memory>
    requires known { AllByRecursion (IsKnown range.now.1) assignments.now }
    ensures { IfOk result (λ found. MatchResult found (λ settings. AreSettings range.now assignments.now settings.items × (first (map (assignment_kind range.now) assignments.now) ≡ None)) (λ code. first (map (assignment_kind range.now) assignments.now) ≡ Some code)) }
{
    let mut settings = Vec::new(alloc);
    for assignment in assignments {
        match known_setting(alloc, range, assignment)? {
            Ok(setting) => settings.push(setting)?,
            Err(code) => return Ok(Err(code)),
        }
    }
    Ok(Ok(settings))
}

fn known_setting<'a>(
    alloc: Global,
    range: &'a (Name, List<Column>),
    assignment: &Assignment,
) -> Result<Result<Setting<'a>, Code>, Memory>
    requires known { IsKnown range.now.1 assignment.now }
    ensures { IfOk result (λ found. MatchResult found (λ setting. IsSetting range.now assignment.now setting × (assignment_kind range.now assignment.now ≡ None)) (λ code. assignment_kind range.now assignment.now ≡ Some code)) }
{
    match column_called(range.1.as_slice(), &assignment.column) {
        Some(column) => setting_of(alloc, range, assignment, column),
        None => Ok(Err(Code::UNKNOWN_COLUMN)),
    }
}

fn setting_of<'a>(
    alloc: Global,
    range: &'a (Name, List<Column>),
    assignment: &Assignment,
    column: &'a Column,
) -> Result<Result<Setting<'a>, Code>, Memory>
    requires called { column_of range.now.1 assignment.now.column ≡ Some column.now }
    ensures { IfOk result (λ found. MatchResult found (λ setting. IsSetting range.now assignment.now setting × (assignment_kind range.now assignment.now ≡ None)) (λ code. assignment_kind range.now assignment.now ≡ Some code)) }
{
    let ranges = slice::from_ref(range);
    match resolve_value(alloc, &assignment.value, ranges, Some(column.kind))? {
        Ok(value) => Ok(Ok(Setting { column, value })),
        Err(code) => Ok(Err(code)),
    }
}

/// Which assignment sets each of the columns, by its place.
pub(crate) fn sources(
    alloc: Global,
    columns: &[Column],
    assignments: &[Assignment],
) -> Result<Vec<Option<usize>>, Memory>
    ensures { IfOk result (λ sources. sources.items ≡ map (place_of assignments.now) columns.now) }
{
    let mut sources = Vec::new(alloc);
    for column in columns {
        sources.push(source_of(assignments, column))?;
    }
    Ok(sources)
}

fn source_of(assignments: &[Assignment], column: &Column) -> Option<usize>
    ensures { result ≡ place_of assignments.now column.now }
{
    assignments
        .iter()
        .position(|assignment| assignment.column == column.name)
}

/// The cells that the settings give over the row; or the first rule that they break: of each 1426,
/// 1407, 12899 and 1438.
pub(crate) fn given(
    alloc: Global,
    settings: &[Setting<'_>],
    session: &SessionFacts,
    cells: &[Cell],
) -> Result<Result<Vec<Cell>, Code>, Memory>
    requires valued { AllByRecursion IsValued settings.now }
    ensures { IfOk result (λ found. MatchResult found
        (λ given. (settings_code session.now settings.now (cells.now ∷ []) ≡ None) × (given.items ≡ settings_cells session.now settings.now (cells.now ∷ [])))
        (λ code. settings_code session.now settings.now (cells.now ∷ []) ≡ Some code)) }
{
    let mut row = Row::new();
    row.push(cells);
    given_over(alloc, settings, session, &row)
}

fn given_over(
    alloc: Global,
    settings: &[Setting<'_>],
    session: &SessionFacts,
    row: &Row<'_>,
) -> Result<Result<Vec<Cell>, Code>, Memory>
    requires valued { AllByRecursion IsValued settings.now }
    ensures { IfOk result (λ found. MatchResult found
        (λ given. (settings_code session.now settings.now row.now ≡ None) × (given.items ≡ settings_cells session.now settings.now row.now))
        (λ code. settings_code session.now settings.now row.now ≡ Some code)) }
{
    let mut given = Vec::new(alloc);
    for setting in settings {
        match given_by(setting, session, row)? {
            Ok(cell) => given.push(cell)?,
            Err(code) => return Ok(Err(code)),
        }
    }
    Ok(Ok(given))
}

fn given_by(
    setting: &Setting<'_>,
    session: &SessionFacts,
    row: &Row<'_>,
) -> Result<Result<Cell, Code>, Memory>
    requires valued { IsValued setting.now }
    ensures { IfOk result (λ found. MatchResult found
        (λ cell. (setting_code session.now row.now setting.now ≡ None) × (cell ≡ cell_in (set_value session.now row.now setting.now)))
        (λ code. setting_code session.now row.now setting.now ≡ Some code)) }
{
    match value(&setting.value, row, session)? {
        Ok(cell) => match fit_code(Code::NULL_SET, setting.column, &cell) {
            Some(code) => Ok(Err(code)),
            None => Ok(Ok(cell)),
        },
        Err(code) => Ok(Err(code)),
    }
}
