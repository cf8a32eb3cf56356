//! Replaying what stands in a journal.
ghost use Rattle.std.specs.Prelude.{◌≡◌, ◌↔◌, IsTrue, ◌++◌, ◌∷◌, [], ℕ, List, length, true, false, IfOk, IfErr, OnOk, MatchBool};
ghost use Rattle.au_entries.specs.Imaging.{nothing};
ghost use Rattle.au_entries.specs.declared.kept.Kept.{Kept};
ghost use Rattle.au_io.specs.Disk.{Stays};
ghost use Rattle.au_journal.specs.Journals.{disk_of, seat_of};
ghost use Rattle.au_journal.specs.Seats.{IsSettled};
ghost use Rattle.au_journal.specs.Walk.{IsMounted, IsWalked};
ghost use Rattle.au_step.specs.Replaying.{EndsWell, IsImage};
ghost use Rattle.au_step.specs.State.{resting};
ghost use Rattle.au_store.specs.Looking.{LookMeets, LookSays};
ghost use Rattle.au_store.specs.Opened.{AreReplayable};
ghost use Rattle.au_store.specs.Recovery.{BeginsBy, GoesOnBy};
ghost use Rattle.au_store.specs.descent.Opening.{IsRead, IsTaken};

use crate::LookFault;
use au_base::Memory;
use au_engine::Engine;
use au_io::Disk;
use au_journal::{Journal, frames_stand_in_a_row};
use rec_codec::{Frame, one_front, read};
use std::alloc::Global;

/// What the bodies of the journal are replayed to. The walk begins.
pub(crate) fn recover<D: Disk>(alloc: Global, journal: &mut Journal<D>) -> Result<Engine, LookFault>
    ensures read { D.told → IsMounted (D.meaning (disk_of journal.old)) (seat_of journal.old)
        → IfOk result (λ engine. IsRead (D.meaning (disk_of journal.new)) (seat_of journal.new) engine.state.kept) }
    ensures resting { IfOk result (λ engine. engine.state ≡ resting engine.state.kept) }
    ensures ends { IfOk result (λ engine. EndsWell engine.state.kept) }
    ensures ended { IfOk result (λ _. (seat_of journal.new).ended ≡ true) }
    ensures why { D.told → IsMounted (D.meaning (disk_of journal.old)) (seat_of journal.old) → IfErr result (LookSays (D.meaning (disk_of journal.old)).reads) }
    ensures settled { (seat_of journal.new).doubt ≡ (seat_of journal.old).doubt }
    ensures stays { Stays (D.meaning (disk_of journal.old)) (D.meaning (disk_of journal.new)) }
    ensures cause { LookMeets result (D.faults (disk_of journal.old)) (D.faults (disk_of journal.new)) }
{
    let mut engine = Engine::empty(alloc)?;
    match replay_all(alloc, journal, &mut engine) {
        Ok(()) => Ok(engine),
        Err(why) => {
            drop(engine);
            Err(why)
        }
    }
}

// Replays the bodies of the journal on an engine that keeps nothing. The walk begins.
fn replay_all<D: Disk>(
    alloc: Global,
    journal: &mut Journal<D>,
    engine: &mut Engine,
) -> Result<(), LookFault>
    requires resting { engine.old.state ≡ resting engine.old.state.kept }
    requires blank { engine.old.state.kept ≡ nothing }
    ensures read { D.told → IsMounted (D.meaning (disk_of journal.old)) (seat_of journal.old)
        → OnOk result (IsRead (D.meaning (disk_of journal.new)) (seat_of journal.new) engine.new.state.kept) }
    ensures resting { engine.new.state ≡ resting engine.new.state.kept }
    ensures ends { OnOk result (EndsWell engine.new.state.kept) }
    ensures ended { OnOk result ((seat_of journal.new).ended ≡ true) }
    ensures why { D.told → IsMounted (D.meaning (disk_of journal.old)) (seat_of journal.old) → IfErr result (LookSays (D.meaning (disk_of journal.old)).reads) }
    ensures settled { (seat_of journal.new).doubt ≡ (seat_of journal.old).doubt }
    ensures stays { Stays (D.meaning (disk_of journal.old)) (D.meaning (disk_of journal.new)) }
    ensures cause { LookMeets result (D.faults (disk_of journal.old)) (D.faults (disk_of journal.new)) }
{
    frames_stand_in_a_row();
    let area = journal.area();
    let at = journal.used();
    let mut room = Vec::new(alloc);
    if !next_body(journal, &mut room)? {
        // The area became shorter since it was mounted.
        return Err(LookFault::Damaged { area, at });
    }
    if !begin_by(alloc, engine, &room)? {
        return Err(LookFault::Damaged { area, at });
    }
    go_on(alloc, journal, engine, &mut room)
}

// Replays the bodies that come behind the first, each read into the room. The walk is at that place.
fn go_on<D: Disk>(
    alloc: Global,
    journal: &mut Journal<D>,
    engine: &mut Engine,
    room: &mut Vec<u8>,
) -> Result<(), LookFault>
    requires resting { engine.old.state ≡ resting engine.old.state.kept }
    requires ends { EndsWell engine.old.state.kept }
    ensures read { D.told → IsTaken (D.meaning (disk_of journal.old)) (seat_of journal.old) engine.old.state.kept
        → OnOk result (IsRead (D.meaning (disk_of journal.new)) (seat_of journal.new) engine.new.state.kept) }
    ensures resting { engine.new.state ≡ resting engine.new.state.kept }
    ensures ends { EndsWell engine.new.state.kept }
    ensures ended { OnOk result ((seat_of journal.new).ended ≡ true) }
    ensures why { D.told → IsTaken (D.meaning (disk_of journal.old)) (seat_of journal.old) engine.old.state.kept
        → IfErr result (LookSays (D.meaning (disk_of journal.old)).reads) }
    ensures settled { (seat_of journal.new).doubt ≡ (seat_of journal.old).doubt }
    ensures stays { Stays (D.meaning (disk_of journal.old)) (D.meaning (disk_of journal.new)) }
    ensures cause { LookMeets result (D.faults (disk_of journal.old)) (D.faults (disk_of journal.new)) }
{
    for _turn in 0..u64::MAX {
        if !take_frame(alloc, journal, engine, room)? {
            return Ok(());
        }
    }
    // Each frame has ten bytes and more, and no area so many.
    Err(LookFault::Memory)
}

// Replays the body that comes next, which is read into the room. `false` at the end of the walk.
fn take_frame<D: Disk>(
    alloc: Global,
    journal: &mut Journal<D>,
    engine: &mut Engine,
    room: &mut Vec<u8>,
) -> Result<bool, LookFault>
    requires resting { engine.old.state ≡ resting engine.old.state.kept }
    requires ends { EndsWell engine.old.state.kept }
    ensures taken { D.told → IsTaken (D.meaning (disk_of journal.old)) (seat_of journal.old) engine.old.state.kept
        → IfOk result (λ found. MatchBool found (IsTaken (D.meaning (disk_of journal.new)) (seat_of journal.new) engine.new.state.kept)
        (IsRead (D.meaning (disk_of journal.new)) (seat_of journal.new) engine.new.state.kept)) }
    ensures resting { engine.new.state ≡ resting engine.new.state.kept }
    ensures ends { EndsWell engine.new.state.kept }
    ensures ended { IfOk result (λ found. found ≡ false → (seat_of journal.new).ended ≡ true) }
    ensures why { D.told → IsTaken (D.meaning (disk_of journal.old)) (seat_of journal.old) engine.old.state.kept
        → IfErr result (LookSays (D.meaning (disk_of journal.old)).reads) }
    ensures settled { (seat_of journal.new).doubt ≡ (seat_of journal.old).doubt }
    ensures stays { Stays (D.meaning (disk_of journal.old)) (D.meaning (disk_of journal.new)) }
    ensures cause { LookMeets result (D.faults (disk_of journal.old)) (D.faults (disk_of journal.new)) }
{
    one_front();
    frames_stand_in_a_row();
    let area = journal.area();
    let at = journal.used();
    if !next_body(journal, room)? {
        return Ok(false);
    }
    if go_on_by(alloc, engine, room)? {
        Ok(true)
    } else {
        Err(LookFault::Damaged { area, at })
    }
}

// Reads the body that comes next into the room, which is then as long. `false` at the end of the walk.
fn next_body<D: Disk>(journal: &mut Journal<D>, room: &mut Vec<u8>) -> Result<bool, LookFault>
    ensures next { D.told → (bodies : List (List ℕ)) → IsWalked (D.meaning (disk_of journal.old)) (seat_of journal.old) bodies
        → IfOk result (λ found. MatchBool found (IsWalked (D.meaning (disk_of journal.new)) (seat_of journal.new) (bodies ++ room.new.items ∷ []))
        (IsSettled (D.meaning (disk_of journal.new)) (seat_of journal.new) bodies)) }
    ensures why { D.told → (bodies : List (List ℕ)) → IsWalked (D.meaning (disk_of journal.old)) (seat_of journal.old) bodies → AreReplayable bodies
        → IfErr result (LookSays (D.meaning (disk_of journal.old)).reads) }
    ensures ended { IfOk result (λ found. found ≡ false → (seat_of journal.new).ended ≡ true) }
    ensures same { ((seat_of journal.new).area ≡ (seat_of journal.old).area) × ((seat_of journal.new).limit ≡ (seat_of journal.old).limit)
        × ((seat_of journal.new).doubt ≡ (seat_of journal.old).doubt) }
    ensures stays { Stays (D.meaning (disk_of journal.old)) (D.meaning (disk_of journal.new)) }
    ensures cause { LookMeets result (D.faults (disk_of journal.old)) (D.faults (disk_of journal.new)) }
{
    match journal.next_length()? {
        None => Ok(false),
        Some(n) => {
            resize(room, n)?;
            journal.next_frame(room)?;
            Ok(true)
        }
    }
}

// Makes the room so long. It takes memory only where the room never was.
fn resize(room: &mut Vec<u8>, n: u64) -> Result<(), Memory>
    ensures { OnOk result (length room.new.items ≡ n) }
{
    room.resize(n as usize, 0)?;
    Ok(())
}

// Replays the body of the first frame on an engine that keeps nothing. `false` where it isn't that of an
// image that can be replayed.
fn begin_by(alloc: Global, engine: &mut Engine, body: &[u8]) -> Result<bool, Memory>
    requires resting { engine.old.state ≡ resting engine.old.state.kept }
    requires blank { engine.old.state.kept ≡ nothing }
    ensures begins { IfOk result (λ done. MatchBool done (BeginsBy body.now engine.new.state.kept) ((kept : Kept) → BeginsBy body.now kept → ⊥)) }
    ensures resting { engine.new.state ≡ resting engine.new.state.kept }
{
    one_front();
    match read(alloc, body)? {
        None => Ok(false),
        Some(frame) => {
            if is_image(&frame) {
                engine.replay(alloc, frame)
            } else {
                Ok(false)
            }
        }
    }
}

// Replays the body. `false` where it isn't that of a frame that goes on from what is kept, and the
// state stays.
fn go_on_by(alloc: Global, engine: &mut Engine, body: &[u8]) -> Result<bool, Memory>
    requires resting { engine.old.state ≡ resting engine.old.state.kept }
    requires ends { EndsWell engine.old.state.kept }
    ensures goes { IfOk result (λ done. MatchBool done (GoesOnBy engine.old.state.kept body.now engine.new.state.kept) ((kept : Kept) → GoesOnBy engine.old.state.kept body.now kept → ⊥)) }
    ensures resting { engine.new.state ≡ resting engine.new.state.kept }
    ensures ends { EndsWell engine.new.state.kept }
{
    one_front();
    match read(alloc, body)? {
        None => Ok(false),
        Some(frame) => {
            if is_image(&frame) {
                Ok(false)
            } else {
                engine.replay(alloc, frame)
            }
        }
    }
}

// Whether it is an image.
fn is_image(frame: &Frame) -> bool
    ensures { IsTrue result ↔ IsImage frame.now }
{
    matches!(frame, Frame::Image { .. })
}
