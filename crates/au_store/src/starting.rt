//! Opening a store.
ghost use Rattle.std.specs.Prelude.{◌≡◌, ◌⊎◌, ◌≤◌, ◌<◌, ◌+◌, ℕ, List, Some, true, false, length, IfOk, IfErr, OnOk, MatchResult};
ghost use Rattle.au_base.specs.Limits.{INSTANCES as last_instance};
ghost use Rattle.au_entries.specs.declared.kept.Kept.{Kept};
ghost use Rattle.au_io.specs.Disk.{HasCause, Passes};
ghost use Rattle.au_io.specs.Moments.{LeavesSince};
ghost use Rattle.au_io.specs.Time.{Reads};
ghost use Rattle.au_journal.specs.Journals.{disk_of, seat_of};
ghost use Rattle.au_journal.specs.Lengths.{gate_bytes};
ghost use Rattle.rec_codec.specs.Frames.{framed};
ghost use Rattle.au_step.specs.Replaying.{EndsWell};
ghost use Rattle.au_step.specs.Returning.{start_frame};
ghost use Rattle.au_step.specs.State.{resting, start};
ghost use Rattle.au_store.specs.Looking.{look_fault_of, opening_fault};
ghost use Rattle.au_store.specs.Recovery.{RecoversToEither};
ghost use Rattle.au_store.specs.Steps.{IsMovedTo};
ghost use Rattle.au_store.specs.Stored.{IsKeptOn};
ghost use Rattle.au_store.specs.descent.Making.{CarriesTo};
ghost use Rattle.au_store.specs.descent.Opening.{IsRead};

use crate::replaying::recover;
use crate::{LookFault, OpenFault, Store};
use au_base::Memory;
use au_base::limits::INSTANCES;
use au_engine::Engine;
use au_io::{Clock, Disk, Failed};
use au_journal::{Appended, Doubt, Journal, MountFault};
use au_step::starts_lead_on;
use rec_codec::write_framed;
use std::alloc::Global;

impl<D: Disk, C: Clock> Store<D, C> {
    ghost use Rattle.au_store.specs.Starting.{IsOpened, IsSeated, IsStarted, NoneIsBare, OpenCause, OpenCosts, OpenLeaves, OpenSays, OpensInVain};
    ghost use Rattle.au_store.specs.descent.Opening.{BeginsInVain, StartSays};

    /// Opens the store that the disk recovers to: syncs the three areas, replays what stands in the
    /// selected one, reads the clock once, and appends the event with which the next instance begins,
    /// free of the limit. An error gives the disk and the clock back.
    pub fn open(alloc: Global, disk: D, clock: C) -> Result<Store<D, C>, (D, C, OpenFault)>
        ensures started { IfOk result (λ store. IsStarted store.reading store.state) }
        ensures opened { D.told → IfOk result (λ store. IsOpened (D.meaning disk).reads store.reading store.state) }
        ensures seated { D.told → IfOk result (λ store. IsSeated (D.meaning disk).reads store.reading store.seat) }
        ensures kept { D.told → IfOk result (λ store. IsKeptOn store.state.kept (D.meaning store.disk) store.seat) }
        ensures settled { IfOk result (λ store. store.seat.doubt ≡ Doubt.Settled) }
        ensures read { IfOk result (λ store. Reads (C.ticking clock) (C.ticking store.clock) store.reading) }
        ensures in_vain { IfErr result (λ failed. OpensInVain D.told D.meaning C.ticking disk failed.0 clock failed.1 failed.2) }
        ensures why { D.told → IfErr result (λ failed. OpenSays (D.meaning disk).reads failed.2) }
        ensures any_moment { D.told → NoneIsBare (D.meaning disk)
            → IfOk result (λ store. LeavesSince (OpenLeaves (D.meaning disk) store.reading) (D.meaning disk) (D.meaning store.disk)) }
        ensures time { MatchResult result (λ store. Passes (D.meaning disk) (D.meaning store.disk)) (λ failed. Passes (D.meaning disk) (D.meaning failed.0)) }
        ensures cost { MatchResult result (λ store. OpenCosts (D.meaning disk).written (D.meaning store.disk).written) (λ failed. OpenCosts (D.meaning disk).written (D.meaning failed.0).written) }
        ensures cause { MatchResult result (λ store. D.faults store.disk ≡ D.faults disk) (λ failed. OpenCause failed.2 (D.faults disk) (D.faults failed.0)) }
    {
        let mut journal = match Journal::mount(disk) {
            Ok(journal) => journal,
            Err((disk, why)) => return Err((disk, clock, open_fault_of(why))),
        };
        match recover(alloc, &mut journal) {
            Ok(engine) => Store::begin(alloc, engine, journal, clock),
            Err(why) => Err((journal.shut(), clock, OpenFault::from(why))),
        }
    }

    // Begins the next instance over what was replayed.
    fn begin(
        alloc: Global,
        engine: Engine,
        journal: Journal<D>,
        clock: C,
    ) -> Result<Store<D, C>, (D, C, OpenFault)>
        requires ended { (seat_of journal).ended ≡ true }
        requires settled { (seat_of journal).doubt ≡ Doubt.Settled }
        requires read { D.told → IsRead (D.meaning (disk_of journal)) (seat_of journal) engine.state.kept }
        requires resting { engine.state ≡ resting engine.state.kept }
        requires ends { EndsWell engine.state.kept }
        ensures begun { IfOk result (λ store. (engine.state.kept.instance < last_instance) × (store.state ≡ start engine.state.kept store.reading)) }
        ensures moved { IfOk result (λ store. IsMovedTo (length (framed (start_frame engine.state.kept store.reading))) (seat_of journal) store.seat) }
        ensures kept { D.told → IfOk result (λ store. IsKeptOn store.state.kept (D.meaning store.disk) store.seat) }
        ensures settled { IfOk result (λ store. store.seat.doubt ≡ Doubt.Settled) }
        ensures clock { IfOk result (λ store. Reads (C.ticking clock) (C.ticking store.clock) store.reading) }
        ensures in_vain { IfErr result (λ failed. BeginsInVain D.told D.meaning C.ticking engine.state.kept ((seat_of journal).bare ≡ false) (disk_of journal) failed.0 clock failed.1 failed.2) }
        ensures why { IfErr result (λ failed. StartSays engine.state.kept failed.2) }
        ensures any_moment { D.told → (seat_of journal).bare ≡ false
            → IfOk result (λ store. LeavesSince (RecoversToEither engine.state.kept (start engine.state.kept store.reading).kept) (D.meaning (disk_of journal)) (D.meaning store.disk)) }
        ensures time { MatchResult result (λ store. Passes (D.meaning (disk_of journal)) (D.meaning store.disk)) (λ failed. Passes (D.meaning (disk_of journal)) (D.meaning failed.0)) }
        ensures cost { MatchResult result (λ store. OpenCosts (D.meaning (disk_of journal)).written (D.meaning store.disk).written) (λ failed. OpenCosts (D.meaning (disk_of journal)).written (D.meaning failed.0).written) }
        ensures cause { MatchResult result (λ store. D.faults store.disk ≡ D.faults (disk_of journal)) (λ failed. OpenCause failed.2 (D.faults (disk_of journal)) (D.faults failed.0)) }
    {
        if engine.instance() >= INSTANCES {
            engine.lawful();
            drop(engine);
            return Err((journal.shut(), clock, OpenFault::Worn));
        }
        let mut engine = engine;
        let mut journal = journal;
        let mut clock = clock;
        let reading = clock.now();
        match next_instance(alloc, &mut engine, reading) {
            Err(_) => {
                drop(engine);
                Err((journal.shut(), clock, OpenFault::Memory))
            }
            Ok(framed) => match write_start(&mut journal, &framed) {
                Ok(()) => Ok(Store {
                    engine,
                    journal,
                    clock,
                    reading,
                }),
                Err(_) => {
                    drop(engine);
                    Err((journal.shut(), clock, OpenFault::Disk))
                }
            },
        }
    }
}

// A journal that can't be mounted can't be opened, for the same reason.
fn open_fault_of(why: MountFault) -> OpenFault
    ensures { result ≡ opening_fault (look_fault_of why) }
{
    OpenFault::from(LookFault::from(why))
}

// Makes the state that of the next instance, which begins at that reading, and gives the framed bytes
// of its event.
fn next_instance(alloc: Global, engine: &mut Engine, reading: u64) -> Result<Vec<u8>, Memory>
    requires fresh { engine.old.state.kept.instance < last_instance }
    requires resting { engine.old.state ≡ resting engine.old.state.kept }
    requires ends { EndsWell engine.old.state.kept }
    ensures state { OnOk result (engine.new.state ≡ start engine.old.state.kept reading) }
    ensures framed { IfOk result (λ bytes. bytes.items ≡ framed (start_frame engine.old.state.kept reading)) }
    ensures carries { IfOk result (λ bytes. CarriesTo engine.old.state.kept (Some bytes.items) (start engine.old.state.kept reading).kept) }
{
    starts_lead_on();
    engine.lawful();
    let frame = engine.start_frame(alloc, reading)?;
    let framed = write_framed(alloc, &frame)?;
    let _goes_on = engine.replay(alloc, frame)?;
    Ok(framed)
}

// Appends the framed bytes, free of the limit.
fn write_start<D: Disk>(journal: &mut Journal<D>, framed: &[u8]) -> Result<(), Failed>
    requires ended { (seat_of journal.old).ended ≡ true }
    requires settled { (seat_of journal.old).doubt ≡ Doubt.Settled }
    requires carries { (kept : Kept) × (next : Kept) × CarriesTo kept (Some framed.now) next }
    ensures kept { D.told → (kept next : Kept) → IsRead (D.meaning (disk_of journal.old)) (seat_of journal.old) kept → CarriesTo kept (Some framed.now) next
        → OnOk result (IsKeptOn next (D.meaning (disk_of journal.new)) (seat_of journal.new)) }
    ensures any_moment { D.told → (kept next : Kept) → IsRead (D.meaning (disk_of journal.old)) (seat_of journal.old) kept → CarriesTo kept (Some framed.now) next
        → (seat_of journal.old).bare ≡ false → LeavesSince (RecoversToEither kept next) (D.meaning (disk_of journal.old)) (D.meaning (disk_of journal.new)) }
    ensures moved { OnOk result (IsMovedTo (length framed.now) (seat_of journal.old) (seat_of journal.new)) }
    ensures ended { OnOk result ((seat_of journal.new).ended ≡ true) }
    ensures gated { OnOk result ((seat_of journal.new).bare ≡ false) }
    ensures settled { OnOk result ((seat_of journal.new).doubt ≡ Doubt.Settled) }
    ensures time { Passes (D.meaning (disk_of journal.old)) (D.meaning (disk_of journal.new)) }
    ensures cost { (D.meaning (disk_of journal.new)).written ≤ (D.meaning (disk_of journal.old)).written + length framed.now + gate_bytes true }
    ensures cause { HasCause (D.faults (disk_of journal.old)) (D.faults (disk_of journal.new)) result }
{
    match journal.append(framed, true) {
        Appended::Done => Ok(()),
        Appended::Disk => Err(Failed),
        // What is free of the limit is never over it.
        Appended::Full { .. } => unreachable!(),
    }
}
