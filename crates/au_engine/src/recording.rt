//! What auditing leaves of events.
ghost use Rattle.std.specs.Prelude.{◌≡◌, [], IfOk, IsTrue, None, Some, if◌then◌else◌};
ghost use Rattle.au_audit.specs.Conditions.{result_before};
ghost use Rattle.au_base.specs.Order.{is_in_order};
ghost use Rattle.au_catalog.specs.Settling.{catalog_of};
ghost use Rattle.au_engine.specs.Counting.{IsCounted};
ghost use Rattle.au_pindex.specs.Indexing.{IsIndexOf};
ghost use Rattle.au_ruling.specs.Rulings.{code_reply};
ghost use Rattle.au_step.specs.Step.{event_left, is_nothing, results_seen};

use crate::Engine;
use crate::outcome::{Outcome, SessionChange};
use crate::replies::code_reply;
use crate::trail::last_after;
use au_audit::Place;
use au_base::{Code, List, Memory, Name, Stamp, Steps};
use au_entries::{Facts, FgaName, KeptResults, Record};
use au_expr::SessionFacts;
use au_pindex::Index;
use au_policy::lawful_policies_can_be_asked;
use au_recording::{Audited, Left, left_by};
use std::alloc::Global;
use std::sync::ledger::Ledger;

// An event that is audited: the results of conditions that its session keeps, its facts, where its
// records stand, the fine-grained policies that fired, and the policies whose results are forgotten.
#[derive(Clone, Copy)]
struct Event<'a> {
    results: &'a List<(Name, bool)>,
    facts: &'a Facts,
    at: &'a Place,
    fired: &'a [FgaName],
    forgets: &'a [Name],
}

impl Engine {
    /// What auditing leaves of an event whose session keeps these results of conditions, and which
    /// forgets those of these policies. The results of the session and of the instance are copied.
    pub(crate) fn event_left<L: Ledger>(
        &self,
        alloc: Global,
        results: &List<(Name, bool)>,
        facts: &Facts,
        at: &Place,
        fired: &[FgaName],
        forgets: &[Name],
        steps: &mut Steps<L>,
    ) -> Result<Left, Memory>
        requires order { IsTrue (is_in_order result_before results.now) }
        ensures left { IfOk result (λ left. left ≡ event_left self.now.state results.now facts.now at.now fired.now forgets.now) }
        ensures counted { IsCounted self.now.state facts.now steps.old steps.new }
    {
        self.holds_together();
        lawful_policies_can_be_asked();
        let event = Event {
            results,
            facts,
            at,
            fired,
            forgets,
        };
        match &self.index {
            Some(index) => self.left_with(alloc, index, event, steps),
            None => {
                let index = Index::of(alloc, self.keeping.catalog())?;
                self.left_with(alloc, &index, event, steps)
            }
        }
    }

    // The same by the index of the catalogue.
    fn left_with<L: Ledger>(
        &self,
        alloc: Global,
        index: &Index,
        event: Event<'_>,
        steps: &mut Steps<L>,
    ) -> Result<Left, Memory>
        requires order { IsTrue (is_in_order result_before event.results.now) }
        requires index { IsIndexOf (catalog_of self.now.state.kept) index.now }
        ensures left { IfOk result (λ left. left ≡ event_left self.now.state event.entry.results.now event.entry.facts.now event.entry.at.now event.entry.fired.now event.entry.forgets.now) }
        ensures counted { IsCounted self.now.state event.entry.facts.now steps.old steps.new }
    {
        self.holds_together();
        lawful_policies_can_be_asked();
        let Event {
            results,
            facts,
            at,
            fired,
            forgets,
        } = event;
        let kept = self.results_seen(results)?;
        let session = SessionFacts::new(alloc, facts.user.clone()?, at.session, at.stamp)?;
        let audited = Audited {
            catalog: self.keeping.catalog(),
            index,
            grants: self.keeping.grants(),
            kept: &kept,
            session: &session,
        };
        let left = left_by(alloc, audited, facts, at, fired, forgets, steps)?;
        Ok(left)
    }

    // The results that are kept for an event: these of its session, and those of the instance.
    fn results_seen(&self, results: &List<(Name, bool)>) -> Result<KeptResults, Memory>
        ensures { IfOk result (λ kept. kept ≡ results_seen self.now.state results.now) }
    {
        Ok(KeptResults {
            session: copied(results)?,
            instance: copied(&self.results)?,
        })
    }

    /// A step at this stamp that is answered with a code, and of which nothing but these records is
    /// kept.
    pub(crate) fn recorded(
        &self,
        alloc: Global,
        code: Code,
        sessions: SessionChange,
        results: List<(Name, bool)>,
        records: List<Record>,
        stamp: Stamp,
    ) -> Outcome
        ensures { result ≡ record { reply = code_reply code; sessions = sessions; results = Some results; finals = 0; changes = []; purge = None; records = records; last = if is_nothing [] None records then self.now.state.kept.last else stamp; framed = None } }
    {
        let last = last_after(
            self.keeping.last(),
            stamp,
            &List::new(alloc),
            &None,
            &records,
        );
        Outcome::of_records(
            alloc,
            code_reply(alloc, code),
            sessions,
            Some(results),
            records,
            last,
        )
    }
}

// The same results.
fn copied(results: &List<(Name, bool)>) -> Result<List<(Name, bool)>, Memory>
    ensures { IfOk result (λ copy. copy ≡ results.now) }
{
    Ok(results.clone()?)
}
