//! Steps, worked out and made ready.
ghost use Rattle.std.specs.Prelude.{◌≡◌, ◌≢◌, ◌<◌, ◌≤◌, IfOk, IfSome, IsSome, OnOk, false, length, map};
ghost use Rattle.std.specs.List.{list_any};
ghost use Rattle.au_step.specs.Framing.{Writes};
ghost use Rattle.au_step.specs.Planning.{IsPlanFor};
ghost use Rattle.au_step.specs.Reading.{IsReadOf};
ghost use Rattle.au_step.specs.Replaying.{EndsWell};
ghost use Rattle.au_step.specs.State.{IsStampOf};
ghost use Rattle.au_step.specs.Step.{LoggedStep, StepAt};
ghost use Rattle.au_engine.specs.Counting.{CountsFor};
ghost use Rattle.au_engine.specs.Inside.{CanBeMade};
ghost use Rattle.au_engine.specs.Prepared.{Fits, HasSpare, IsIndexReady, after, logged_by, logged_of, made_of};
ghost use Rattle.au_engine.specs.Reserved.{contents_of};
ghost use Rattle.au_catalog.specs.Settling.{catalog_after_all, catalog_of, condition_texts};
ghost use Rattle.au_kept.specs.Keeping.{desk_of};
ghost use Rattle.au_pindex.specs.Changing.{changes_policies};
ghost use Rattle.au_pindex.specs.Indexing.{IsIndexOf};
ghost use Rattle.au_pindex.specs.Staging as indexes;
ghost use Rattle.au_policy.specs.Asking.{CanBeAsked};
ghost use Rattle.au_replay.specs.Reading.{conditions};
ghost use Rattle.au_txn.specs.Desks.{spare_of};

use crate::Engine;
use crate::framing::{asks_are_text, with_frame};
use crate::outcome::{Outcome, RowsChange, SessionChange};
use crate::prepared::Prepared;
use au_base::{Ask, ClientNo, Code, Memory, Stamp, Steps};
use au_catalog::{Catalog, catalogues_change_by_their_parts};
use au_entries::Change;
use au_kept::{spellings_are_short, trees_of};
use au_pindex::{Index, StagedIndex};
use au_policy::lawful_policies_can_be_asked;
use au_step::{clients_have_one_session, frames_lead_on, steps_hold};
use au_world::RowPlan;
use sql_ast::{Expr, Statement};
use std::alloc::Global;
use std::sync::ledger::Ledger;

impl Engine {
    /// Works out the step of a client's ask at this stamp, and leaves the state as it is. A text
    /// that is asked comes with what it is read as, and with its plan; with another ask any reading
    /// comes. The results that the session and the instance keep of conditions are copied. Of the audit
    /// policies those are tested that aren't Off and name the event, one step each; at the first step
    /// behind a replay, and behind one that made several changes of which some are of policies, the
    /// index of all is made before. One that is made stays, whatever is answered.
    pub fn prepare<L: Ledger>(
        &mut self,
        alloc: Global,
        client: ClientNo,
        ask: &Ask,
        read: &Result<Statement, Code>,
        plan: Option<RowPlan>,
        stamp: Stamp,
        steps: &mut Steps<L>,
    ) -> Result<Prepared, Memory>
        requires client { client.0 ≢ 0 }
        requires read { IsReadOf ask.now read.now }
        requires stamp { IsStampOf self.old.state stamp.0 }
        requires seated { EndsWell self.old.state.kept }
        requires planned { IsPlanFor self.old.state client ask.now stamp.0 read.now plan }
        ensures step { IfOk result (λ prepared. StepAt self.old.state client ask.now stamp.0 prepared.reply (after prepared self.old.state)) }
        ensures logged { IfOk result (λ prepared. LoggedStep self.old.state client ask.now stamp.0 prepared.reply (logged_of prepared) (after prepared self.old.state)) }
        ensures writes { IfOk result (λ prepared. Writes self.old.state client ask.now stamp.0 (after prepared self.old.state) prepared.framed) }
        ensures keeps { self.new.state ≡ self.old.state }
        ensures fits { IfOk result (λ prepared. Fits prepared self.new) }
        ensures index { OnOk result (IsSome self.new.index) }
        ensures stays { IsSome self.old.index → IsSome self.new.index }
        ensures follows { IfOk result (λ prepared. IsIndexReady (logged_of prepared).changes prepared.index) }
        ensures steps { CountsFor self.old.state client ask.now stamp.0 steps.old steps.new }
    {
        if let Err(why) = self.reserve() {
            drop(plan);
            return Err(why);
        }
        if let Err(why) = self.index_policies(alloc) {
            drop(plan);
            return Err(why);
        }
        let outcome = self.step(alloc, client, ask, read, plan, stamp, steps)?;
        let outcome = self.framed(alloc, client, ask, stamp, outcome)?;
        if let Err(why) = self.reserve_rows(alloc, &outcome.sessions) {
            drop(outcome);
            return Err(why);
        }
        let index = match self.stage_index(alloc, client, ask, stamp, &outcome) {
            Ok(index) => index,
            Err(why) => {
                drop(outcome);
                return Err(why);
            }
        };
        self.ready(alloc, client, ask, stamp, outcome, index)
    }

    // Makes the index of the audit policies, where there is none: in the time of going over them twice,
    // for what their parts name and for their conditions.
    fn index_policies(&mut self, alloc: Global) -> Result<(), Memory>
        ensures keeps { self.new.state ≡ self.old.state }
        ensures seats { self.new.seats ≡ self.old.seats }
        ensures index { OnOk result (IsSome self.new.index) }
        ensures stays { IsSome self.old.index → IsSome self.new.index }
    {
        if self.index.is_none() {
            self.holds_together();
            lawful_policies_can_be_asked();
            self.index = Some(Index::of(alloc, self.keeping.catalog())?);
        }
        Ok(())
    }

    // Makes room for a session.
    fn reserve(&mut self) -> Result<(), Memory>
        ensures keeps { self.new.state ≡ self.old.state }
        ensures index { self.new.index ≡ self.old.index }
        ensures seat { OnOk result (0 < self.new.seats) }
    {
        self.sessions.reserve(1)?;
        self.seats = 1;
        Ok(())
    }

    // Makes room for the changes of rows that the step writes.
    fn reserve_rows(&mut self, alloc: Global, change: &SessionChange) -> Result<(), Memory>
        ensures keeps { self.new.state ≡ self.old.state }
        ensures seats { self.new.seats ≡ self.old.seats }
        ensures index { self.new.index ≡ self.old.index }
        ensures spare { OnOk result (HasSpare change.now (desk_of (contents_of self.new))) }
    {
        match change {
            SessionChange::Counts {
                client,
                rows: RowsChange::Writes { changes, .. },
                ..
            } => self.reserve_for(alloc, *client, changes.len()),
            _ => Ok(()),
        }
    }

    // Makes room for so many changes of rows of the client.
    fn reserve_for(&mut self, alloc: Global, client: ClientNo, more: usize) -> Result<(), Memory>
        ensures keeps { self.new.state ≡ self.old.state }
        ensures seats { self.new.seats ≡ self.old.seats }
        ensures index { self.new.index ≡ self.old.index }
        ensures spare { OnOk result (more ≤ spare_of client (desk_of (contents_of self.new))) }
    {
        self.keeping.reserve(alloc, client, more)
    }

    // The step of the ask.
    fn step<L: Ledger>(
        &self,
        alloc: Global,
        client: ClientNo,
        ask: &Ask,
        read: &Result<Statement, Code>,
        plan: Option<RowPlan>,
        stamp: Stamp,
        steps: &mut Steps<L>,
    ) -> Result<Outcome, Memory>
        requires read { IsReadOf ask.now read.now }
        requires stamp { IsStampOf self.now.state stamp.0 }
        requires seated { EndsWell self.now.state.kept }
        requires planned { IsPlanFor self.now.state client ask.now stamp.0 read.now plan }
        ensures made { IfOk result (CanBeMade self.now.state) }
        ensures step { IfOk result (λ outcome. LoggedStep self.now.state client ask.now stamp.0 outcome.reply (logged_by outcome) (made_of outcome self.now.state)) }
        ensures steps { CountsFor self.now.state client ask.now stamp.0 steps.old steps.new }
    {
        match ask {
            Ask::Local => self.local(alloc, client, stamp, steps),
            Ask::Logon { user, password } => {
                self.logon(alloc, client, user, password, stamp, steps)
            }
            Ask::Sql(text) => self.sql(alloc, client, text, read, plan, stamp, steps),
            Ask::Logoff => self.logoff(alloc, client, stamp, steps),
        }
    }

    // The step with the framed bytes of what it writes.
    fn framed(
        &self,
        alloc: Global,
        client: ClientNo,
        ask: &Ask,
        stamp: Stamp,
        outcome: Outcome,
    ) -> Result<Outcome, Memory>
        requires client { client.0 ≢ 0 }
        requires stamp { IsStampOf self.now.state stamp.0 }
        requires seated { EndsWell self.now.state.kept }
        requires step { LoggedStep self.now.state client ask.now stamp.0 outcome.reply (logged_by outcome) (made_of outcome self.now.state) }
        ensures made { IfOk result (λ made. made ≡ record outcome { framed = made.framed }) }
        ensures writes { IfOk result (λ made. Writes self.now.state client ask.now stamp.0 (made_of made self.now.state) made.framed) }
    {
        self.lawful();
        asks_are_text(ask);
        frames_lead_on();
        let made = with_frame(alloc, stamp, outcome)?;
        Ok(made)
    }

    // The changes of the step, ready to be made of the index of the audit policies.
    fn stage_index(
        &mut self,
        alloc: Global,
        client: ClientNo,
        ask: &Ask,
        stamp: Stamp,
        outcome: &Outcome,
    ) -> Result<Option<StagedIndex>, Memory>
        requires client { client.0 ≢ 0 }
        requires stamp { IsStampOf self.old.state stamp.0 }
        requires seated { EndsWell self.old.state.kept }
        requires step { LoggedStep self.old.state client ask.now stamp.0 outcome.now.reply (logged_by outcome.now) (made_of outcome.now self.old.state) }
        requires index { IsSome self.old.index }
        ensures leads { IfOk result (λ ready. IfSome ready (indexes.IsStaged (catalog_of self.old.state.kept) (catalog_of (made_of outcome.now self.old.state).kept))) }
        ensures fits { IfOk result (λ ready. IfSome self.new.index (λ index. IfSome ready (λ staged. indexes.Fits staged index))) }
        ensures made { IsSome self.new.index }
        ensures follows { IfOk result (IsIndexReady (logged_by outcome.now).changes) }
        ensures contents { contents_of self.new ≡ contents_of self.old }
        ensures keeps { self.new.state ≡ self.old.state }
        ensures seats { self.new.seats ≡ self.old.seats }
    {
        self.holds_together();
        asks_are_text(ask);
        steps_hold();
        spellings_are_short();
        lawful_policies_can_be_asked();
        catalogues_change_by_their_parts();
        let changes = behind(outcome);
        let trees = trees_of(alloc, changes)?;
        let catalog = self.keeping.catalog();
        staged_on(&mut self.index, alloc, catalog, changes, trees.as_slice())
    }

    // The step with its changes ready to be made, and with room for its records.
    fn ready(
        &mut self,
        alloc: Global,
        client: ClientNo,
        ask: &Ask,
        stamp: Stamp,
        outcome: Outcome,
        index: Option<StagedIndex>,
    ) -> Result<Prepared, Memory>
        requires client { client.0 ≢ 0 }
        requires stamp { IsStampOf self.old.state stamp.0 }
        requires seated { EndsWell self.old.state.kept }
        requires step { LoggedStep self.old.state client ask.now stamp.0 outcome.reply (logged_by outcome) (made_of outcome self.old.state) }
        requires made { CanBeMade self.old.state outcome }
        requires seat { 0 < self.old.seats }
        requires spare { HasSpare outcome.sessions (desk_of (contents_of self.old)) }
        requires leads { IfSome index (indexes.IsStaged (catalog_of self.old.state.kept) (catalog_of (made_of outcome self.old.state).kept)) }
        requires index { IfSome self.old.index (λ made. IfSome index (λ staged. indexes.Fits staged made)) }
        requires follows { IsIndexReady (logged_by outcome).changes index }
        ensures reply { IfOk result (λ prepared. prepared.reply ≡ outcome.reply) }
        ensures after { IfOk result (λ prepared. after prepared self.old.state ≡ made_of outcome self.old.state) }
        ensures framed { IfOk result (λ prepared. prepared.framed ≡ outcome.framed) }
        ensures logged { IfOk result (λ prepared. logged_of prepared ≡ logged_by outcome) }
        ensures follows { IfOk result (λ prepared. IsIndexReady (logged_of prepared).changes prepared.index) }
        ensures keeps { self.new.state ≡ self.old.state }
        ensures index { self.new.index ≡ self.old.index }
        ensures fits { IfOk result (λ prepared. Fits prepared self.new) }
    {
        self.holds_together();
        asks_are_text(ask);
        steps_hold();
        clients_have_one_session();
        spellings_are_short();
        let staged = match self
            .keeping
            .stage(alloc, behind(&outcome), outcome.records.len())
        {
            Ok(staged) => staged,
            Err(why) => {
                drop(outcome);
                drop(index);
                return Err(why);
            }
        };
        let Outcome {
            reply,
            sessions,
            results,
            finals,
            changes,
            purge,
            records,
            last,
            framed,
        } = outcome;
        Ok(Prepared {
            reply,
            sessions,
            results,
            finals,
            changes,
            staged,
            index,
            purge,
            records,
            last,
            framed,
        })
    }
}

// The changes, ready to be made of the index of the catalogue, which is made.
fn staged_on(
    index: &mut Option<Index>,
    alloc: Global,
    catalog: &Catalog,
    changes: &[Change],
    trees: &[Expr],
) -> Result<Option<StagedIndex>, Memory>
    requires made { IsSome index.old }
    requires index { IfSome index.old (IsIndexOf catalog.now) }
    requires catalog { CanBeAsked catalog.now }
    requires trees { trees.now ≡ map conditions.tree (condition_texts changes.now) }
    requires after { CanBeAsked (catalog_after_all conditions.tree changes.now catalog.now) }
    ensures staged { IfOk result (λ ready. IfSome ready (indexes.IsStaged catalog.now (catalog_after_all conditions.tree changes.now catalog.now))) }
    ensures fits { IfOk result (λ ready. IfSome index.new (λ made. IfSome ready (λ staged. indexes.Fits staged made))) }
    ensures index { IfSome index.new (IsIndexOf catalog.now) }
    ensures made { IsSome index.new }
    ensures one { length changes.now ≡ 1 → IfOk result IsSome }
    ensures others { list_any changes_policies changes.now ≡ false → IfOk result IsSome }
{
    match index {
        Some(index) => index.stage(alloc, catalog, changes, trees),
        None => unreachable!(),
    }
}

// The changes of the step behind those of the rows that it commits.
fn behind(outcome: &Outcome) -> &[Change]
    ensures { result.now ≡ (logged_by outcome.now).changes }
{
    outcome
        .changes
        .as_slice()
        .get(outcome.finals..)
        .unwrap_or(&[])
}
