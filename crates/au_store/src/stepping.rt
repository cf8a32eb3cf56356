//! The steps of a store.
ghost use Rattle.std.specs.Prelude.{◌≡◌, ◌≢◌, ◌⊎◌, ◌≤◌, ◌<◌, ◌+◌, ℕ, IfOk};
ghost use Rattle.au_base.specs.declared.reply.Reply.{Reply as AnyReply};
ghost use Rattle.au_entries.specs.declared.kept.Kept.{Kept};
ghost use Rattle.au_io.specs.Disk.{Passes};
ghost use Rattle.au_io.specs.Moments.{LeavesSince};
ghost use Rattle.au_io.specs.Time.{Reads};
ghost use Rattle.au_journal.specs.Causes.{MendCause};
ghost use Rattle.au_journal.specs.Seats.{mend_bytes, mended, mended_reads};
ghost use Rattle.au_engine.specs.Counting.{CountsFor};
ghost use Rattle.au_engine.specs.Prepared.{Fits, after};
ghost use Rattle.au_step.specs.Replaying.{EndsWell};
ghost use Rattle.au_step.specs.State.{stamp_of};
ghost use Rattle.au_step.specs.Step.{Step};

use crate::Store;
use crate::preparing::prepare;
use crate::ready::Ready;
use crate::writing::write;
use au_base::{Ask, ClientNo, Memory, Reply, Said, Steps};
use au_engine::Engine;
use au_io::{Clock, Disk};
use au_journal::{Appended, Doubt, Mended};
use std::alloc::Global;
use std::marker::Brand;
use std::sync::ledger::{Blank, Ledger};

impl<D: Disk, C: Clock> Store<D, C> {
    ghost use Rattle.au_store.specs.History.{HistoryGoesOn};
    ghost use Rattle.au_store.specs.Recovery.{RecoversToEither};
    ghost use Rattle.au_store.specs.Steps.{Exceeds, IsLeftOut, StepCause, StepCosts, StepLeaves, StepMoves, StepsBy, event_at};
    ghost use Rattle.au_store.specs.descent.Making.{IsFullFor, IsMoved, IsReady, IsRoomFor, MakesBy, WritesSome, WritesTo, cost_of_written, written_in};
    ghost use Rattle.au_store.specs.Doubts.{IsLeftBy, IsStoodOn};
    ghost use Rattle.au_store.specs.Stored.{IsKeptOn, reserved_of};

    /// Does what a client asks, and answers once it is safe from a crash. It first mends what an
    /// earlier step left in doubt, and reads the clock once where that succeeds.
    ///
    /// `Disk` has the state as it was, and one step in doubt, which a crash may leave done: this one, or
    /// the earlier one where the mend failed. `Full` and `Memory` have the state as it was, and nothing
    /// in doubt; where nothing was in doubt before, the disk wasn't called.
    ///
    /// Client 0, by whom frames are replayed, asks nothing. `steps` counts the audit policies that are
    /// tested: at most those that aren't Off and name the event, and none where the ask is no event.
    pub fn step<L: Ledger>(
        &mut self,
        alloc: Global,
        client: ClientNo,
        ask: &Ask,
        steps: &mut Steps<L>,
    ) -> Said
        requires client { client.0 ≢ 0 }
        ensures step { StepsBy self.old.state (event_at client ask.now self.new.reading) result self.new.state }
        ensures moves { StepMoves self.old.state (event_at client ask.now self.new.reading) self.new.state result self.old.seat self.new.seat }
        ensures full { (needed limit : ℕ) → result ≡ Said.Full needed limit → Exceeds self.old.state (event_at client ask.now self.new.reading) self.old.seat needed limit }
        ensures tries { HistoryGoesOn D.told D.meaning D.faults C.ticking client ask.now self.old self.new result }
        ensures settled { result ≢ Said.Disk → self.new.seat.doubt ≡ Doubt.Settled }
        ensures in_doubt { result ≡ Said.Disk → self.new.seat.doubt ≢ Doubt.Settled }
        ensures kept { D.told → result ≢ Said.Disk → IsKeptOn self.new.state.kept (D.meaning self.new.disk) self.new.seat }
        ensures untouched { IsLeftOut result → self.old.seat.doubt ≡ Doubt.Settled → self.new.disk ≡ self.old.disk }
        ensures mended { D.told → IsLeftOut result → (D.meaning self.new.disk).reads ≡ mended_reads self.old.seat.doubt self.old.seat (D.meaning self.old.disk).reads }
        ensures steps { CountsFor self.old.state client ask.now (stamp_of self.old.state self.new.reading) steps.old steps.new }
        ensures any_moment { D.told → (doubted : Kept) → IsStoodOn self.old.state.kept doubted (D.meaning self.old.disk) self.old.seat
            → LeavesSince (StepLeaves self.old.state (event_at client ask.now self.new.reading) doubted) (D.meaning self.old.disk) (D.meaning self.new.disk) }
        ensures time { Passes (D.meaning self.old.disk) (D.meaning self.new.disk) }
        ensures cost { StepCosts self.old.state (event_at client ask.now self.new.reading) (mend_bytes self.old.seat.doubt) result (D.meaning self.old.disk).written (D.meaning self.new.disk).written }
        ensures cause { StepCause result (D.faults self.old.disk) (D.faults self.new.disk) }
    {
        match self.mend() {
            Mended::Disk => Said::Disk,
            Mended::Done => match self.prepare(alloc, client, ask, steps) {
                Ok(ready) => self.make(ready),
                Err(_) => Said::Memory,
            },
        }
    }

    /// What `step` does, for a caller that asks for no count of tested policies.
    pub fn answer(&mut self, alloc: Global, client: ClientNo, ask: &Ask) -> Said
        requires client { client.0 ≢ 0 }
        ensures step { StepsBy self.old.state (event_at client ask.now self.new.reading) result self.new.state }
        ensures moves { StepMoves self.old.state (event_at client ask.now self.new.reading) self.new.state result self.old.seat self.new.seat }
        ensures full { (needed limit : ℕ) → result ≡ Said.Full needed limit → Exceeds self.old.state (event_at client ask.now self.new.reading) self.old.seat needed limit }
        ensures tries { HistoryGoesOn D.told D.meaning D.faults C.ticking client ask.now self.old self.new result }
        ensures settled { result ≢ Said.Disk → self.new.seat.doubt ≡ Doubt.Settled }
        ensures in_doubt { result ≡ Said.Disk → self.new.seat.doubt ≢ Doubt.Settled }
        ensures kept { D.told → result ≢ Said.Disk → IsKeptOn self.new.state.kept (D.meaning self.new.disk) self.new.seat }
        ensures untouched { IsLeftOut result → self.old.seat.doubt ≡ Doubt.Settled → self.new.disk ≡ self.old.disk }
        ensures mended { D.told → IsLeftOut result → (D.meaning self.new.disk).reads ≡ mended_reads self.old.seat.doubt self.old.seat (D.meaning self.old.disk).reads }
        ensures any_moment { D.told → (doubted : Kept) → IsStoodOn self.old.state.kept doubted (D.meaning self.old.disk) self.old.seat
            → LeavesSince (StepLeaves self.old.state (event_at client ask.now self.new.reading) doubted) (D.meaning self.old.disk) (D.meaning self.new.disk) }
        ensures time { Passes (D.meaning self.old.disk) (D.meaning self.new.disk) }
        ensures cost { StepCosts self.old.state (event_at client ask.now self.new.reading) (mend_bytes self.old.seat.doubt) result (D.meaning self.old.disk).written (D.meaning self.new.disk).written }
        ensures cause { StepCause result (D.faults self.old.disk) (D.faults self.new.disk) }
    {
        self.answer_counted::<Brand>(alloc, client, ask, Blank::new(1))
    }

    // The step of `answer`, which counts on the blank.
    fn answer_counted<L: Ledger>(
        &mut self,
        alloc: Global,
        client: ClientNo,
        ask: &Ask,
        blank: Blank,
    ) -> Said
        requires client { client.0 ≢ 0 }
        requires name { blank.name ≡ L.name }
        requires parts { blank.parts ≡ L.parts }
        requires some { 0 < L.parts }
        ensures step { StepsBy self.old.state (event_at client ask.now self.new.reading) result self.new.state }
        ensures moves { StepMoves self.old.state (event_at client ask.now self.new.reading) self.new.state result self.old.seat self.new.seat }
        ensures full { (needed limit : ℕ) → result ≡ Said.Full needed limit → Exceeds self.old.state (event_at client ask.now self.new.reading) self.old.seat needed limit }
        ensures tries { HistoryGoesOn D.told D.meaning D.faults C.ticking client ask.now self.old self.new result }
        ensures settled { result ≢ Said.Disk → self.new.seat.doubt ≡ Doubt.Settled }
        ensures in_doubt { result ≡ Said.Disk → self.new.seat.doubt ≢ Doubt.Settled }
        ensures kept { D.told → result ≢ Said.Disk → IsKeptOn self.new.state.kept (D.meaning self.new.disk) self.new.seat }
        ensures untouched { IsLeftOut result → self.old.seat.doubt ≡ Doubt.Settled → self.new.disk ≡ self.old.disk }
        ensures mended { D.told → IsLeftOut result → (D.meaning self.new.disk).reads ≡ mended_reads self.old.seat.doubt self.old.seat (D.meaning self.old.disk).reads }
        ensures any_moment { D.told → (doubted : Kept) → IsStoodOn self.old.state.kept doubted (D.meaning self.old.disk) self.old.seat
            → LeavesSince (StepLeaves self.old.state (event_at client ask.now self.new.reading) doubted) (D.meaning self.old.disk) (D.meaning self.new.disk) }
        ensures time { Passes (D.meaning self.old.disk) (D.meaning self.new.disk) }
        ensures cost { StepCosts self.old.state (event_at client ask.now self.new.reading) (mend_bytes self.old.seat.doubt) result (D.meaning self.old.disk).written (D.meaning self.new.disk).written }
        ensures cause { StepCause result (D.faults self.old.disk) (D.faults self.new.disk) }
    {
        let mut steps = Steps::<L>::new(blank);
        self.step(alloc, client, ask, &mut steps)
    }

    // Ends the doubt of a step that couldn't be written.
    fn mend(&mut self) -> Mended
        ensures mended { result ≡ Mended.Done → self.new.seat ≡ mended self.old.seat }
        ensures kept { D.told → result ≡ Mended.Done → IsKeptOn self.old.state.kept (D.meaning self.new.disk) self.new.seat }
        ensures rests { result ≡ Mended.Disk → self.new.seat ≡ self.old.seat }
        ensures still { self.old.seat.doubt ≡ Doubt.Settled → self.new.disk ≡ self.old.disk }
        ensures reads { D.told → result ≡ Mended.Done → (D.meaning self.new.disk).reads ≡ mended_reads self.old.seat.doubt self.old.seat (D.meaning self.old.disk).reads }
        ensures stood { result ≡ Mended.Disk → self.old.seat.doubt ≢ Doubt.Settled }
        ensures doubted { D.told → (doubted : Kept) → IsStoodOn self.old.state.kept doubted (D.meaning self.old.disk) self.old.seat
            → result ≡ Mended.Disk → IsStoodOn self.old.state.kept doubted (D.meaning self.new.disk) self.new.seat }
        ensures any_moment { D.told → (doubted : Kept) → IsStoodOn self.old.state.kept doubted (D.meaning self.old.disk) self.old.seat
            → LeavesSince (RecoversToEither self.old.state.kept doubted) (D.meaning self.old.disk) (D.meaning self.new.disk) }
        ensures same { (self.new.state ≡ self.old.state) × (self.new.room ≡ self.old.room) × (self.new.clock ≡ self.old.clock) × (self.new.reading ≡ self.old.reading) }
        ensures time { Passes (D.meaning self.old.disk) (D.meaning self.new.disk) }
        ensures cost { (D.meaning self.new.disk).written ≤ (D.meaning self.old.disk).written + mend_bytes self.old.seat.doubt }
        ensures cause { MendCause result (D.faults self.old.disk) (D.faults self.new.disk) }
    {
        self.journal.mend()
    }

    // Reads the clock, and works out the step of the ask.
    fn prepare<L: Ledger>(
        &mut self,
        alloc: Global,
        client: ClientNo,
        ask: &Ask,
        steps: &mut Steps<L>,
    ) -> Result<Ready, Memory>
        requires client { client.0 ≢ 0 }
        ensures reading { Reads (C.ticking self.old.clock) (C.ticking self.new.clock) self.new.reading }
        ensures step { IfOk result (λ ready. Step self.new.state (event_at client ask.now self.new.reading) ready.prepared.reply (after ready.prepared self.new.state)) }
        ensures ready { IfOk result (IsReady self.new.state client ask.now (stamp_of self.new.state self.new.reading)) }
        ensures carries { IfOk result (λ ready. WritesTo self.new.state.kept (written_in ready) (after ready.prepared self.new.state).kept) }
        ensures ends { IfOk result (λ ready. EndsWell (after ready.prepared self.new.state).kept) }
        ensures fits { IfOk result (λ ready. Fits ready.prepared (reserved_of self.new)) }
        ensures state { self.new.state ≡ self.old.state }
        ensures steps { CountsFor self.old.state client ask.now (stamp_of self.old.state self.new.reading) steps.old steps.new }
        ensures same { (self.new.disk ≡ self.old.disk) × (self.new.seat ≡ self.old.seat) }
    {
        let reading = self.clock.now();
        self.reading = reading;
        let stamp = self.engine.stamp(reading);
        prepare(&mut self.engine, alloc, client, ask, stamp, steps)
    }

    // Writes what the step that is ready leaves to be kept, and makes the step.
    fn make(&mut self, ready: Ready) -> Said
        requires settled { self.old.seat.doubt ≡ Doubt.Settled }
        requires fits { Fits ready.prepared (reserved_of self.old) }
        requires carries { WritesTo self.old.state.kept (written_in ready) (after ready.prepared self.old.state).kept }
        requires ends { EndsWell (after ready.prepared self.old.state).kept }
        requires left { WritesSome (written_in ready) → IsLeftBy self.old.state (after ready.prepared self.old.state).kept }
        ensures made { MakesBy ready.prepared self.old.state result self.new.state }
        ensures within { (reply : AnyReply) → result ≡ Said.Replied reply → IsRoomFor self.old.seat (written_in ready) }
        ensures full { (needed limit : ℕ) → result ≡ Said.Full needed limit → IsFullFor self.old.seat (written_in ready) needed limit }
        ensures untouched { (needed limit : ℕ) → result ≡ Said.Full needed limit → self.new.disk ≡ self.old.disk }
        ensures moved { IsMoved result (written_in ready) self.old.seat self.new.seat }
        ensures kept { D.told → result ≢ Said.Disk → IsKeptOn self.new.state.kept (D.meaning self.new.disk) self.new.seat }
        ensures settled { result ≢ Said.Disk → self.new.seat.doubt ≡ Doubt.Settled }
        ensures in_doubt { result ≡ Said.Disk → self.new.seat.doubt ≢ Doubt.Settled }
        ensures fits { result ≡ Said.Disk → IsRoomFor self.old.seat (written_in ready) }
        ensures wrote { result ≡ Said.Disk → WritesSome (written_in ready) }
        ensures doubted { D.told → result ≡ Said.Disk → IsStoodOn self.old.state.kept (after ready.prepared self.old.state).kept (D.meaning self.new.disk) self.new.seat }
        ensures any_moment { D.told → LeavesSince (RecoversToEither self.old.state.kept (after ready.prepared self.old.state).kept) (D.meaning self.old.disk) (D.meaning self.new.disk) }
        ensures same { (self.new.clock ≡ self.old.clock) × (self.new.reading ≡ self.old.reading) }
        ensures time { Passes (D.meaning self.old.disk) (D.meaning self.new.disk) }
        ensures cost { (D.meaning self.new.disk).written ≤ (D.meaning self.old.disk).written + cost_of_written (written_in ready) }
        ensures cause { StepCause result (D.faults self.old.disk) (D.faults self.new.disk) }
    {
        match write(&mut self.journal, &ready) {
            Appended::Done => Said::Replied(apply(&mut self.engine, ready)),
            Appended::Disk => {
                drop(ready);
                Said::Disk
            }
            Appended::Full { needed, limit } => {
                drop(ready);
                Said::Full { needed, limit }
            }
        }
    }
}

// Makes the step that was written.
fn apply(engine: &mut Engine, ready: Ready) -> Reply
    requires { Fits ready.prepared engine.old }
    ensures reply { result ≡ ready.prepared.reply }
    ensures next { engine.new.state ≡ after ready.prepared engine.old.state }
{
    let Ready { prepared, image: _ } = ready;
    engine.apply(prepared)
}
