//! Policies that fire where a row passes their tests.
ghost use Rattle.std.specs.Prelude.{◌≡◌, ◌&&◌, IfOk, IsTrue, map, true};
ghost use Rattle.std.specs.List.{list_any};
ghost use Rattle.au_audit.specs.Firing.{are_referenced, names_type, of_table};
ghost use Rattle.au_base.specs.Order.{fields_before, is_in_order};
ghost use Rattle.au_entries.specs.Changing.{table_fields};
ghost use Rattle.au_fga.specs.Testing.{CanBeTested, IsTruthOver, RowsFit, seen_rows, table_of};
ghost use Rattle.au_fga.specs.descent.Candidates.{AnswersFor, AreCandidates};

use crate::RowFacts;
use crate::finding::table_of;
use crate::naming::{are_referenced, names_type};
use crate::testing::{Test, test_of};
use crate::touching::is_touched;
use au_base::{Memory, TableName};
use au_catalog::Catalog;
use au_entries::{Condition, FgaName, FgaPolicy, Table};
use std::alloc::Global;

/// A policy that fires where a touched row of its table passes the test.
#[derive(Drop)]
pub struct Candidate<'a> {
    pub name: &'a FgaName,
    pub test: Test<'a>,
}

/// The policies that are enabled, whose types name the action, whose columns are referenced, and of
/// whose tables a row is touched, in the order of the catalogue.
pub fn candidates_of<'a>(
    alloc: Global,
    catalog: &'a Catalog,
    facts: &RowFacts<'_>,
) -> Result<Vec<Candidate<'a>>, Memory>
    requires catalog { CanBeTested catalog.now }
    requires rows { RowsFit catalog.now.tables (map seen_rows facts.now.touched) }
    ensures { IfOk result (λ candidates. AreCandidates catalog.now facts.now candidates.items) }
{
    let mut candidates = Vec::new(alloc);
    for policy in catalog.fga.as_slice() {
        if is_candidate(policy, facts) {
            let test = tested(
                alloc,
                &policy.condition,
                &policy.name.table,
                catalog.tables.as_slice(),
            )?;
            candidates.push(Candidate {
                name: &policy.name,
                test,
            })?;
        }
    }
    Ok(candidates)
}

fn is_candidate(policy: &FgaPolicy, facts: &RowFacts<'_>) -> bool
    ensures { result ≡ ((policy.now.enabled && (names_type policy.now.types facts.now.action && are_referenced policy.now.columns policy.now.all (of_table policy.now.name.table facts.now.named))) && list_any (λ row. true) (of_table policy.now.name.table (map seen_rows facts.now.touched))) }
{
    is_meant(policy, facts) && is_touched(facts.touched.as_slice(), &policy.name.table)
}

// Whether the policy is enabled, its types name the action, and its columns are referenced.
fn is_meant(policy: &FgaPolicy, facts: &RowFacts<'_>) -> bool
    ensures { result ≡ (policy.now.enabled && (names_type policy.now.types facts.now.action && are_referenced policy.now.columns policy.now.all (of_table policy.now.name.table facts.now.named))) }
{
    policy.enabled
        && (names_type(policy.types, facts.action)
            && are_referenced(policy, facts.named.as_slice()))
}

// The test of the rows of a policy's table.
fn tested<'a>(
    alloc: Global,
    condition: &'a Option<Condition>,
    name: &TableName,
    tables: &[Table],
) -> Result<Test<'a>, Memory>
    requires truth { IsTruthOver (table_of tables.now name.now) condition.now }
    requires order { IsTrue (is_in_order fields_before (map (λ table. table_fields table.name) tables.now)) }
    ensures { IfOk result (AnswersFor tables.now name.now condition.now) }
{
    match (condition, table_of(tables, name)) {
        (None, _) => Ok(Test::Every),
        (Some(condition), Some(table)) => test_of(alloc, &condition.tree, table),
        (Some(_), None) => unreachable!(),
    }
}
