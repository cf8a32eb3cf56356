//! The engine: the whole state.
ghost use Rattle.std.specs.Prelude.{◌≡◌, ◌↔◌, ◌<◌, [], IfOk, IfSome, IsSome, IsTrue, OnErr, OnOk, if◌then◌else◌, is_some};
ghost use Rattle.au_base.specs.Limits.{INSTANCES};
ghost use Rattle.au_base.specs.declared.numbers.ClientNo.{ClientNo as Client};
ghost use Rattle.au_entries.specs.Imaging.{nothing};
ghost use Rattle.au_image.specs.Image.{image_of};
ghost use Rattle.au_opening.specs.Opening.{opening};
ghost use Rattle.au_step.specs.Abandoning.{abandoned};
ghost use Rattle.au_step.specs.Lawful.{IsLawfulState};
ghost use Rattle.au_step.specs.Replaying.{EndsWell, IsImage, IsReplayable, after_frame};
ghost use Rattle.au_step.specs.Returning.{start_frame};
ghost use Rattle.au_step.specs.State.{resting, stamp_of};
ghost use Rattle.au_step.specs.Step.{session_of, transaction_of};
ghost use Rattle.au_txn.specs.Desks.{open_of};
ghost use Rattle.au_txn.specs.Logs.{changes_of};
ghost use Rattle.au_step.specs.Sessions.{HaveOneEach};
ghost use Rattle.au_engine.specs.Prepared.{Fits, after, instance_after};
ghost use Rattle.au_engine.specs.Reserved.{contents_of};
ghost use Rattle.au_kept.specs.Keeping.{HoldsTogether, desk_of};
ghost use Rattle.au_catalog.specs.declared.catalog.Catalog.{Catalog};
ghost use Rattle.au_catalog.specs.Settling.{catalog_of};
ghost use Rattle.au_pindex.specs.Indexing.{IsIndexOf};
ghost use Rattle.au_pindex.specs.Staging as indexes;
ghost use Rattle.rec_codec.specs.Frames.{IsSpellable, framed};

use crate::prepared::Prepared;
use crate::sessions::{drawn_after, end_session};
use crate::settling::{KeptChange, forget, settle};
use au_base::{ClientNo, LAST_MOMENT, List, Memory, Name, Reply, Stamp};
use au_entries::{Change, Kept, Record};
use au_kept::{Keeping, transactions_hold};
use au_opening::opening_changes;
use au_pindex::{Index, StagedIndex};
use au_step::{Session, ends_stay_lawful, starts_can_be_written};
use rec_codec::Frame;
use std::alloc::Global;
use std::marker::Model;

/// The whole state. Contracts see it beside each client's changes of rows, the numbers of rows, records
/// and sessions for which room is reserved, and the index of the audit policies.
#[derive(Drop)]
pub struct Engine {
    pub(crate) keeping: Keeping,
    pub(crate) sessions: Vec<Session>,
    /// How many sessions the instance has drawn.
    pub(crate) drawn: u32,
    /// The results that are kept of conditions which are evaluated once an instance.
    pub(crate) results: List<(Name, bool)>,
    /// The index of the audit policies, where it is made.
    pub(crate) index: Option<Index>,
    /// For so many more sessions there is room.
    pub(crate) seats: usize,
}

impl Model for Engine {
    ghost use Rattle.std.specs.Prelude.{◌≡◌, ◌+◌, ◌≤◌, [], IfSome, None, map, vec_len, vec_capacity};
    ghost use Rattle.au_catalog.specs.Settling.{catalog_of};
    ghost use Rattle.au_pindex.specs.contracts.index.Index as policy_index;
    ghost use Rattle.au_pindex.specs.Indexing.{IsIndexOf};
    ghost use Rattle.std.specs.Coded.{codes as value_codes};
    ghost use Rattle.au_base.specs.declared.numbers.ClientNo.{ClientNo as Client};
    ghost use Rattle.au_txn.specs.Logs.{changes_of};
    ghost use Rattle.sql_ast.specs.contracts.expression.Expr as expression;
    ghost use Rattle.au_step.specs.Lawful.{IsLawfulState};
    ghost use Rattle.au_step.specs.Sessions.{HaveOneEach};
    ghost use Rattle.au_step.specs.Step.{session_of};
    ghost use Rattle.au_engine.specs.Reserved.{Reserved, with_changes};

    ghost Value = { Reserved };

    ghost coded = { Prim.hlevel (value_codes, expression.the_row.coded, policy_index.the_row.coded) };

    ghost view = { λ e. record {
      state = record { kept = e.keeping.kept; sessions = map (with_changes e.keeping.logs) e.sessions.items; drawn = e.drawn; results = e.results };
      logs = e.keeping.logs;
      spare = e.keeping.spare;
      room = e.keeping.room;
      seats = e.seats;
      index = e.index;
    } };

    ghost invariant = { λ e. (vec_len e.sessions + e.seats ≤ vec_capacity e.sessions)
        × IsLawfulState (record { kept = e.keeping.kept; sessions = map (with_changes e.keeping.logs) e.sessions.items; drawn = e.drawn; results = e.results })
        × HaveOneEach (map (with_changes e.keeping.logs) e.sessions.items)
        × ((client : Client) → session_of (map (with_changes e.keeping.logs) e.sessions.items) client ≡ None → changes_of client e.keeping.logs ≡ [])
        × IfSome e.index (IsIndexOf (catalog_of e.keeping.kept)) };
}

impl Engine {
    /// An engine that keeps nothing, on which the frames of a journal are replayed.
    pub fn empty(alloc: Global) -> Result<Engine, Memory>
        ensures { IfOk result (λ engine. engine.state ≡ resting nothing) }
    {
        let keeping = Keeping::blank(alloc)?;
        Ok(Engine::over(alloc, keeping))
    }

    /// An engine of what a new store keeps, whose SYS has this password. No instance has begun.
    pub fn of_new_store(alloc: Global, password: &[u8]) -> Result<Engine, Memory>
        ensures { IfOk result (λ engine. engine.state ≡ resting (opening password.now)) }
    {
        let mut engine = Engine::empty(alloc)?;
        match engine.take_opening(alloc, password) {
            Ok(()) => Ok(engine),
            Err(why) => {
                drop(engine);
                Err(why)
            }
        }
    }

    /// The stamp of an event at this reading of the clock: the larger of the reading and the last
    /// stamp. A reading past the last moment counts as that.
    pub fn stamp(&self, reading: u64) -> Stamp
        ensures { result.0 ≡ stamp_of self.now.state reading }
    {
        let last = self.keeping.last();
        Stamp(reading.min(LAST_MOMENT).max(last.0))
    }

    /// The number of the instance.
    pub fn instance(&self) -> u32
        ensures { result ≡ self.now.state.kept.instance }
    {
        self.keeping.instance()
    }

    /// The records of the trail, oldest first.
    pub(crate) fn trail(&self) -> &[Record]
        ensures { result.now ≡ self.now.state.kept.trail }
    {
        self.keeping.trail()
    }

    /// The framed image of what is kept: the body's length in eight bytes, the body, and a closed
    /// gate. It leads from nothing to what is kept, and goes on from nothing where SYS is a user. What
    /// has more changes or records than an image can count, 4,294,967,295, answers `Memory`.
    pub fn image(&self, alloc: Global) -> Result<Vec<u8>, Memory>
        ensures bytes { IfOk result (λ bytes. bytes.items ≡ framed (image_of self.now.state.kept)) }
        ensures spellable { IfOk result (λ bytes. IsSpellable (image_of self.now.state.kept)) }
        ensures back { after_frame nothing (image_of self.now.state.kept) ≡ self.now.state.kept }
        ensures goes { EndsWell self.now.state.kept → IsReplayable nothing (image_of self.now.state.kept) }
    {
        self.keeping.image(alloc)
    }

    /// Replays a frame: `true` exactly where it goes on from what is kept, which is then what it
    /// makes of it. Where it doesn't, all stays as it was. An image comes to an engine that keeps
    /// nothing. No client has a session.
    pub fn replay(&mut self, alloc: Global, frame: Frame) -> Result<bool, Memory>
        requires spelled { IsSpellable frame }
        requires first { IsImage frame → self.old.state.kept ≡ nothing }
        requires idle { self.old.state.sessions ≡ [] }
        ensures rule { IfOk result (λ done. IsTrue done ↔ IsReplayable self.old.state.kept frame) }
        ensures state { IfOk result (λ done. self.new.state ≡ (if done then record self.old.state { kept = after_frame self.old.state.kept frame } else self.old.state)) }
        ensures err { OnErr result (self.new.state ≡ self.old.state) }
    {
        transactions_hold();
        self.index = None;
        let done = self.keeping.replay(alloc, frame);
        self.keeping.holds_together();
        done
    }

    /// The event with which the next instance begins, at this reading of the clock.
    pub fn start_frame(&self, alloc: Global, reading: u64) -> Result<Frame, Memory>
        requires { self.now.state.kept.instance < INSTANCES }
        ensures frame { IfOk result (λ frame. frame ≡ start_frame self.now.state.kept reading) }
        ensures spellable { IsSpellable (start_frame self.now.state.kept reading) }
    {
        self.lawful();
        starts_can_be_written();
        let mut changes = List::new(alloc);
        changes.push(Change::Start(self.instance() + 1))?;
        Ok(Frame::Event {
            stamp: self.stamp(reading),
            changes,
            records: List::new(alloc),
        })
    }

    /// Makes a step that was worked out. It takes no memory and can't fail. The index of the audit
    /// policies stays, where the step has its changes ready for it.
    pub fn apply(&mut self, prepared: Prepared) -> Reply
        requires { Fits prepared self.old }
        ensures reply { result ≡ prepared.reply }
        ensures next { self.new.state ≡ after prepared self.old.state }
        ensures index { IsSome self.old.index → IsSome prepared.index → IsSome self.new.index }
    {
        self.keeping.holds_together();
        let Prepared {
            reply,
            sessions,
            results,
            finals: _,
            changes: _,
            staged,
            index,
            purge,
            records,
            last,
            framed: _,
        } = prepared;
        settle_index(&mut self.index, index);
        self.seats -= 1;
        self.drawn = drawn_after(&sessions, self.drawn);
        let kept = KeptChange {
            staged,
            purge,
            records: records.into_vec(),
            last,
        };
        settle(&mut self.keeping, &mut self.sessions, sessions, kept);
        set_results(&mut self.results, results);
        reply
    }

    /// Whether the client has a session.
    pub fn stands(&self, client: ClientNo) -> bool
        ensures { result ≡ is_some (session_of self.now.state.sessions client) }
    {
        self.client_session(client).is_some()
    }

    /// Ends the client's session, where it has one, and its transaction is lost. Nothing else is
    /// changed, and nothing is recorded. It takes no memory and can't fail.
    pub fn abandon(&mut self, client: ClientNo)
        ensures { self.new.state ≡ abandoned client self.old.state }
    {
        ends_stay_lawful();
        forget(&mut self.keeping, client);
        end_session(&mut self.sessions, client);
    }

    /// What is kept, without the instance. It copies all rows, and is for exports and trials.
    pub fn into_kept(self, alloc: Global) -> Result<Kept, Memory>
        ensures { IfOk result (λ kept. kept ≡ self.state.kept) }
    {
        self.keeping.into_kept(alloc)
    }

    /// What is kept is lawful, and so is each session. It does nothing, and states the law for its
    /// callers.
    pub fn lawful(&self)
        ensures { IsLawfulState self.now.state }
    {
        self.holds_together();
    }

    /// No client has two sessions. It does nothing, and states the law for its callers.
    pub fn sessions_are_apart(&self)
        ensures { HaveOneEach self.now.state.sessions }
    {
        self.holds_together();
    }

    /// The index of the audit policies, where it is made, is that of the catalogue. It does nothing, and
    /// states the law for its callers.
    pub fn index_is_of_catalogue(&self)
        ensures { IfSome self.now.index (IsIndexOf (catalog_of self.now.state.kept)) }
    {
        let _index = &self.index;
    }

    /// What holds of every engine: its state is lawful, no client has two sessions, one without a
    /// session has no changes of rows, and the desk has each client's transaction. It does nothing, and
    /// states it for its callers.
    pub(crate) fn holds_together(&self)
        ensures lawful { IsLawfulState self.now.state }
        ensures apart { HaveOneEach self.now.state.sessions }
        ensures quiet { (client : Client) → session_of self.now.state.sessions client ≡ None → changes_of client self.now.logs ≡ [] }
        ensures open_to { (client : Client) → open_of (desk_of (contents_of self.now)) client ≡ transaction_of self.now.state.sessions client }
        ensures together { HoldsTogether self.now.state.kept (desk_of (contents_of self.now)) }
    {
        self.keeping.holds_together();
    }

    // No instance runs over what is kept, which is nothing.
    fn over(alloc: Global, keeping: Keeping) -> Engine
        requires kept { keeping.kept ≡ nothing }
        requires logs { keeping.logs ≡ [] }
        ensures { result.state ≡ resting nothing }
    {
        transactions_hold();
        keeping.holds_together();
        Engine {
            keeping,
            sessions: Vec::new(alloc),
            drawn: 0,
            results: List::new(alloc),
            index: None,
            seats: 0,
        }
    }

    // Replays the image of what a new store keeps.
    fn take_opening(&mut self, alloc: Global, password: &[u8]) -> Result<(), Memory>
        requires { self.old.state ≡ resting nothing }
        ensures { OnOk result (self.new.state ≡ resting (opening password.now)) }
    {
        let changes = opening_changes(alloc, password)?;
        let frame = Frame::Image {
            last: Stamp(0),
            changes,
            records: List::new(alloc),
        };
        au_opening::opening_is_kept();
        au_kept::images_lead_back();
        if self.replay(alloc, frame)? {
            return Ok(());
        }
        unreachable!()
    }
}

// Makes the changes of the index that are ready, or drops the index where none are. It takes no memory.
fn settle_index(index: &mut Option<Index>, ready: Option<StagedIndex>)
    requires { IfSome index.old (λ made. IfSome ready (λ staged. indexes.Fits staged made)) }
    ensures leads { (catalog after : Catalog) → IfSome ready (indexes.IsStaged catalog after) → IfSome index.old (IsIndexOf catalog) → IfSome index.new (IsIndexOf after) }
    ensures stays { IsSome index.old → IsSome ready → IsSome index.new }
{
    match ready {
        Some(staged) => settle_made(index, staged),
        None => *index = None,
    }
}

// Makes the changes of the index that are ready, where it is made.
fn settle_made(index: &mut Option<Index>, staged: StagedIndex)
    requires { IfSome index.old (indexes.Fits staged) }
    ensures leads { (catalog after : Catalog) → indexes.IsStaged catalog after staged → IfSome index.old (IsIndexOf catalog) → IfSome index.new (IsIndexOf after) }
    ensures stays { IsSome index.old → IsSome index.new }
{
    match index {
        Some(index) => index.settle(staged),
        None => drop(staged),
    }
}

// Sets the instance's results, where there are others. It takes no memory.
fn set_results(results: &mut List<(Name, bool)>, others: Option<List<(Name, bool)>>)
    ensures { results.new ≡ instance_after others results.old }
{
    if let Some(others) = others {
        *results = others;
    }
}
