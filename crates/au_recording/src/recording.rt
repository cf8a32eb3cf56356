//! What an event leaves.
ghost use Rattle.std.specs.Prelude.{◌≡◌, ◌≤◌, ◌+◌, IfOk};
ghost use Rattle.au_pindex.specs.Indexing.{IsIndexOf};
ghost use Rattle.au_pindex.specs.Naming.{count_named};
ghost use Rattle.au_policy.specs.Asking.{AreInOrder, CanBeAsked};
ghost use Rattle.au_recording.specs.Recording.{left_by};

use crate::audited::Audited;
use crate::keeping::results_after;
use crate::left::Left;
use au_audit::Place;
use au_base::{List, Memory, Name, Steps};
use au_entries::{Facts, FgaName};
use au_trail::records;
use std::alloc::Global;
use std::sync::ledger::Ledger;

/// What auditing leaves of an event with these facts, at this place of the trail, at which these
/// fine-grained policies fired and the results of these audit policies are forgotten. Of the
/// audit policies at most those are tested that aren't Off and name the event, one step each.
pub fn left_by<L: Ledger>(
    alloc: Global,
    audited: Audited<'_>,
    facts: &Facts,
    at: &Place,
    fired: &[FgaName],
    forgets: &[Name],
    steps: &mut Steps<L>,
) -> Result<Left, Memory>
    requires index { IsIndexOf audited.catalog.now audited.index.now }
    requires catalog { CanBeAsked audited.catalog.now }
    requires order { AreInOrder audited.kept.now }
    ensures left { IfOk result (λ left. left ≡ left_by audited.entry.catalog.now audited.entry.grants.now audited.entry.kept.now audited.entry.session.now facts.now at.now fired.now forgets.now) }
    ensures counts { steps.old ≤ steps.new }
    ensures steps { steps.new ≤ steps.old + count_named audited.entry.grants.now audited.entry.catalog.now facts.now }
{
    let Audited {
        catalog,
        index,
        grants,
        kept,
        session,
    } = audited;
    let demanded = index.demanded(alloc, catalog, grants, facts, kept, session, steps)?;
    let records = records(alloc, facts, &demanded, fired, at)?;
    let results = results_after(
        alloc,
        catalog.policies.as_slice(),
        demanded.learnt,
        forgets,
        kept,
    )?;
    Ok(Left {
        records: List::from_vec(records),
        results,
    })
}
