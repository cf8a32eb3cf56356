//! The right to the tables that a statement names.
ghost use Rattle.std.specs.Prelude.{◌≡◌, ◌++◌, ◌∷◌, [], IfOk, OnOk, filter};
ghost use Rattle.std.specs.List.{AllZip, list_any};
ghost use Rattle.au_world.specs.Rights as spec;
ghost use Rattle.au_world.specs.Rights.{Answers, AreTableRights, refusal, used_by, uses};
ghost use Rattle.au_world.specs.Sights.{is_there as there};
ghost use Rattle.au_world.specs.Sound.{AreTablesInOrder};

use crate::World;
use crate::built_in::{TableKind, kind_of};
use crate::finding::has_table;
use au_base::{
    Action, Code, List, Memory, Name, Privilege, TableName, constants_are_as_listed,
    is_same_privilege,
};
use au_entries::Table;
use au_priv::{Allowed, allowed_on};
use std::alloc::Global;

/// Whether a user may do something with each of several tables: the code, 0 where nothing is
/// refused, and the system privileges that make it possible, in the order of their numbers. Nothing
/// is used where something is refused.
#[derive(Debug, Drop, PartialEq, Eq)]
pub struct TableRights {
    pub code: Code,
    pub used: List<Privilege>,
}

/// Whether the user may do this with each of the tables, in their order. A table that isn't there
/// is refused by 942, and so is one of which the user may know nothing; else 1031.
pub fn table_rights(
    alloc: Global,
    world: &World<'_>,
    user: &Name,
    tables: &[TableName],
    action: Action,
) -> Result<TableRights, Memory>
    requires order { AreTablesInOrder world.now.catalog.now.tables }
    ensures { IfOk result (AreTableRights world.now.catalog.now.tables world.now.grants.now user.now action tables.now) }
{
    let answers = answers(alloc, world, user, tables, action)?;
    let rights = rights(alloc, &answers)?;
    Ok(rights)
}

fn answers(
    alloc: Global,
    world: &World<'_>,
    user: &Name,
    tables: &[TableName],
    action: Action,
) -> Result<Vec<Allowed>, Memory>
    requires order { AreTablesInOrder world.now.catalog.now.tables }
    ensures { IfOk result (λ answers. AllZip (Answers world.now.catalog.now.tables world.now.grants.now user.now action) tables.now answers.items) }
{
    let mut answers = Vec::new(alloc);
    for table in tables {
        answers.push(answer(world, user, table, action))?;
    }
    Ok(answers)
}

fn answer(world: &World<'_>, user: &Name, table: &TableName, action: Action) -> Allowed
    requires order { AreTablesInOrder world.now.catalog.now.tables }
    ensures { Answers world.now.catalog.now.tables world.now.grants.now user.now action table.now result }
{
    if !is_there(world.catalog.tables.as_slice(), table) {
        return Allowed::Refused(Code::NO_SUCH_TABLE);
    }
    allowed_on(world.grants, user, table, action)
}

/// Whether the table is a built-in one or the catalogue has it. It takes no memory.
pub fn is_there(tables: &[Table], table: &TableName) -> bool
    requires order { AreTablesInOrder tables.now }
    ensures { result ≡ there tables.now table.now }
{
    match kind_of(table) {
        TableKind::Dual => true,
        TableKind::Trail => true,
        TableKind::Created => has_table(tables, table),
    }
}

fn rights(alloc: Global, answers: &[Allowed]) -> Result<TableRights, Memory>
    ensures code { IfOk result (λ rights. rights.code ≡ spec.code_or_done (refusal answers.now)) }
    ensures used { IfOk result (λ rights. rights.used ≡ spec.used_unless (refusal answers.now) answers.now) }
{
    match refused(answers) {
        Some(code) => Ok(TableRights {
            code,
            used: List::new(alloc),
        }),
        None => Ok(TableRights {
            code: Code::DONE,
            used: used(alloc, answers)?,
        }),
    }
}

fn refused(answers: &[Allowed]) -> Option<Code>
    ensures { result ≡ refusal answers.now }
{
    for answer in answers {
        if let Allowed::Refused(code) = answer {
            return Some(*code);
        }
    }
    None
}

fn used(alloc: Global, answers: &[Allowed]) -> Result<List<Privilege>, Memory>
    ensures { IfOk result (λ used. used ≡ used_by answers.now) }
{
    constants_are_as_listed();
    let used = used_among(alloc, &Privilege::EACH, answers)?;
    Ok(used)
}

#[tactic(auto, using(crate::proofs::Used::filter_cons))]
fn used_among(
    alloc: Global,
    privileges: &[Privilege],
    answers: &[Allowed],
) -> Result<List<Privilege>, Memory>
    ensures { IfOk result (λ used. used ≡ filter (λ privilege. list_any (uses privilege) answers.now) privileges.now) }
{
    let mut used = List::new(alloc);
    for privilege in privileges {
        push_used(&mut used, *privilege, answers)?;
    }
    Ok(used)
}

// Adds the privilege where some answer uses it.
fn push_used(
    used: &mut List<Privilege>,
    privilege: Privilege,
    answers: &[Allowed],
) -> Result<(), Memory>
    ensures { OnOk result (used.new ≡ used.old ++ filter (λ other. list_any (uses other) answers.now) (privilege ∷ [])) }
{
    if is_used(privilege, answers) {
        used.push(privilege)?;
    }
    Ok(())
}

fn is_used(privilege: Privilege, answers: &[Allowed]) -> bool
    ensures { result ≡ list_any (uses privilege) answers.now }
{
    for answer in answers {
        if uses_it(privilege, *answer) {
            return true;
        }
    }
    false
}

fn uses_it(privilege: Privilege, answer: Allowed) -> bool
    ensures { result ≡ uses privilege answer }
{
    match answer {
        Allowed::System(used) => is_same_privilege(used, privilege),
        _ => false,
    }
}
