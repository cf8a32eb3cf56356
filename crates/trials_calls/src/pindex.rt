//! The index of audit policies beside the plain filter. A case `pindex|POLICIES|STATEMENTS|SEED` draws
//! policies of all kinds, enabled in all modes, and asks what they demand of the drawn statements, by
//! the filter and by the index. It answers how many policies have an enablement, how many names were
//! demanded, how many results were learnt, and whether both gave the same each time. What is drawn
//! follows from the seed alone.
ghost use Rattle.std.specs.Prelude.{◌≡◌, ◌<◌};
ghost use Rattle.au_policy.specs.Asking.{CanBeAsked};

use crate::drawn::{Draw, drawn_catalog, drawn_facts, drawn_grants, drawn_kept, drawn_session};
use crate::order::can_be_asked;
use au_base::Steps;
use au_catalog::Catalog;
use au_entries::Demanded;
use au_grants::Grants;
use au_pindex::Index;
use std::alloc::Global;
use std::marker::Brand;
use std::sync::ledger::{Blank, Ledger};
use trials_lines::{Fault, number};

/// What comes of a case.
pub fn answers(alloc: Global, case: &str) -> Result<String, Fault> {
    let policies = number(field(case, 1))?;
    let statements = number(field(case, 2))?;
    let seed = number(field(case, 3))?;
    same(alloc, policies, statements, seed)
}

// The field of a case at a place from 0; the empty text past the last.
fn field(case: &str, place: usize) -> &str {
    case.split('|').nth(place).unwrap_or("")
}

fn same(alloc: Global, policies: u64, statements: u64, seed: u64) -> Result<String, Fault> {
    let mut draw = Draw::new(seed);
    let catalog = drawn_catalog(alloc, policies, &mut draw)?;
    let grants = drawn_grants(alloc, &mut draw)?;
    if !can_be_asked(alloc, &catalog)? {
        return Err(Fault::NoCase);
    }
    let trial = Trial {
        policies,
        statements,
        draw,
    };
    compared::<Brand>(alloc, &catalog, &grants, trial, Blank::new(1))
}

// How much is tried.
#[derive(Drop)]
struct Trial {
    policies: u64,
    statements: u64,
    draw: Draw,
}

// What was demanded.
#[derive(Drop)]
struct Sum {
    names: u64,
    learnt: u64,
    is_same: bool,
}

fn compared<L: Ledger>(
    alloc: Global,
    catalog: &Catalog,
    grants: &Grants,
    trial: Trial,
    blank: Blank,
) -> Result<String, Fault>
    requires catalog { CanBeAsked catalog.now }
    requires name { blank.name ≡ L.name }
    requires parts { blank.parts ≡ L.parts }
    requires some { 0 < L.parts }
{
    let mut steps = Steps::<L>::new(blank);
    let index = Index::of(alloc, catalog)?;
    let Trial {
        policies,
        statements,
        mut draw,
    } = trial;
    let mut sum = Sum {
        names: 0,
        learnt: 0,
        is_same: true,
    };
    for _statement in 0..statements {
        let facts = drawn_facts(alloc, &mut draw)?;
        let session = drawn_session(alloc, &facts, &mut draw)?;
        let kept = drawn_kept(alloc, policies, &mut draw)?;
        let plain = au_policy::demanded(alloc, catalog, grants, &facts, &kept, &session)?;
        let found = index.demanded(alloc, catalog, grants, &facts, &kept, &session, &mut steps)?;
        sum.is_same = sum.is_same && plain == found;
        add(&mut sum, &found);
    }
    told(alloc, catalog.enabled.len(), &sum)
}

fn told(alloc: Global, enabled: usize, sum: &Sum) -> Result<String, Fault> {
    let Sum {
        names,
        learnt,
        is_same,
    } = sum;
    let same = if *is_same { "the same" } else { "not the same" };
    Ok(format!(in alloc; "{enabled} enablements, {names} names, {learnt} results, {same}")?)
}

fn add(sum: &mut Sum, found: &Demanded) {
    sum.names = sum.names.saturating_add(found.names.len() as u64);
    sum.learnt = sum.learnt.saturating_add(found.learnt.len() as u64);
}
