//! Which policies fire.
ghost use Rattle.std.specs.Prelude.{◌≡◌, Bool, IfOk, length, map};
ghost use Rattle.std.specs.List.{filter};
ghost use Rattle.au_audit.specs.Firing.{fires};
ghost use Rattle.au_base.specs.Codes.{DONE};
ghost use Rattle.au_fga.specs.Testing.{CanBeTested, RowsFit, firing_now, seen, seen_rows, truth_over};
ghost use Rattle.au_fga.specs.declared.candidates.Candidate.{Candidate as Tested};
ghost use Rattle.au_fga.specs.descent.Candidates.{name_of};

use crate::RowFacts;
use crate::candidates::{Candidate, candidates_of};
use crate::marking::answers;
use crate::ordering::put_in_order;
use au_audit::fired_policies_stand_in_order;
use au_base::Memory;
use au_catalog::Catalog;
use au_entries::FgaName;
use au_expr::SessionFacts;
use std::alloc::Global;

/// The fine-grained policies of the catalogue that demand a record of a statement that was done, in
/// the order of their records: by the policy's name, then the owner, then the table. Each policy is
/// prepared once: where a row of its table is touched, the table is found by halving, and the
/// condition is resolved over it, unless it is one comparison of a column with a number or a text,
/// whose column alone is found. Then the rows are tested, a thousand after another, by each policy
/// that none has met so far; nothing is allocated for a row.
pub fn firing(
    alloc: Global,
    catalog: &Catalog,
    facts: &RowFacts<'_>,
    session: &SessionFacts,
) -> Result<Vec<FgaName>, Memory>
    requires catalog { CanBeTested catalog.now }
    requires rows { RowsFit catalog.now.tables (map seen_rows facts.now.touched) }
    ensures { IfOk result (λ names. names.items ≡ firing_now catalog.now session.now (seen facts.now)) }
{
    fired_policies_stand_in_order();
    let mut names = fired(alloc, catalog, facts, session)?;
    put_in_order(&mut names);
    Ok(names)
}

// The policies that fire, in the order of the catalogue.
fn fired(
    alloc: Global,
    catalog: &Catalog,
    facts: &RowFacts<'_>,
    session: &SessionFacts,
) -> Result<Vec<FgaName>, Memory>
    requires catalog { CanBeTested catalog.now }
    requires rows { RowsFit catalog.now.tables (map seen_rows facts.now.touched) }
    ensures { IfOk result (λ names. names.items ≡ map (λ policy. policy.name) (filter (fires (truth_over session.now catalog.now.tables) DONE (seen facts.now)) catalog.now.fga)) }
{
    let candidates = candidates_of(alloc, catalog, facts)?;
    let met = answers(
        alloc,
        candidates.as_slice(),
        facts.touched.as_slice(),
        session,
    )?;
    names_of(alloc, candidates.as_slice(), met.as_slice())
}

// The names of the candidates that are marked.
fn names_of(
    alloc: Global,
    candidates: &[Candidate<'_>],
    met: &[bool],
) -> Result<Vec<FgaName>, Memory>
    requires { length met.now ≡ length candidates.now }
    ensures { (test : Tested → Bool) → met.now ≡ map test candidates.now → IfOk result (λ names. names.items ≡ map name_of (filter test candidates.now)) }
{
    let mut names = Vec::new(alloc);
    for (place, candidate) in candidates.iter().enumerate() {
        if met[place] {
            names.push(copied(candidate.name)?)?;
        }
    }
    Ok(names)
}

fn copied(name: &FgaName) -> Result<FgaName, Memory>
    ensures { IfOk result (λ copy. copy ≡ name.now) }
{
    Ok(FgaName {
        table: name.table.clone()?,
        policy: name.policy.clone()?,
    })
}
