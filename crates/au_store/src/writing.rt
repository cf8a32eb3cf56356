//! Writing what a step leaves to be kept.
ghost use Rattle.std.specs.Prelude.{◌≡◌, ◌≢◌, ◌≤◌, ◌+◌, ℕ, List, Some, true, false, length};
ghost use Rattle.au_entries.specs.declared.kept.Kept.{Kept};
ghost use Rattle.au_io.specs.Disk.{Passes};
ghost use Rattle.au_io.specs.Moments.{LeavesSince};
ghost use Rattle.au_journal.specs.Causes.{AppendCause};
ghost use Rattle.au_journal.specs.Journals.{disk_of, seat_of};
ghost use Rattle.au_journal.specs.Lengths.{flip_cost};
ghost use Rattle.au_journal.specs.Seats.{IsFramed, IsFullAt};
ghost use Rattle.au_store.specs.Recovery.{RecoversToEither};
ghost use Rattle.au_store.specs.Steps.{IsMovedTo};
ghost use Rattle.au_store.specs.Doubts.{IsStoodOn};
ghost use Rattle.au_store.specs.Stored.{IsKeptOn};
ghost use Rattle.au_store.specs.descent.Making.{AreFramed, Begins, CarriesTo, IsFlippedTo, IsFramedIn, IsFullFor, IsMovedBy, IsRoomFor, IsWithin, WritesSome, WritesTo, cost_of_written, growth, written_by, written_in};

use crate::ready::Ready;
use au_engine::Prepared;
use au_io::Disk;
use au_journal::{Appended, Doubt, Journal};

/// Writes what the step that is ready leaves to be kept, where it leaves anything: its frame behind
/// what stands, or, of a purge, the image of what is kept after it into the other area. `Full` leaves
/// the journal as it is.
pub(crate) fn write<D: Disk>(journal: &mut Journal<D>, ready: &Ready) -> Appended
    requires ended { (seat_of journal.old).ended ≡ true }
    requires gated { (seat_of journal.old).bare ≡ false }
    requires settled { (seat_of journal.old).doubt ≡ Doubt.Settled }
    requires framed { IsFramedIn (written_in ready.now) }
    ensures kept { D.told → (kept next : Kept) → IsKeptOn kept (D.meaning (disk_of journal.old)) (seat_of journal.old) → WritesTo kept (written_in ready.now) next
        → result ≡ Appended.Done → IsKeptOn next (D.meaning (disk_of journal.new)) (seat_of journal.new) }
    ensures doubted { D.told → (kept next : Kept) → IsKeptOn kept (D.meaning (disk_of journal.old)) (seat_of journal.old) → WritesTo kept (written_in ready.now) next
        → result ≡ Appended.Disk → IsStoodOn kept next (D.meaning (disk_of journal.new)) (seat_of journal.new) }
    ensures any_moment { D.told → (kept next : Kept) → IsKeptOn kept (D.meaning (disk_of journal.old)) (seat_of journal.old) → WritesTo kept (written_in ready.now) next
        → LeavesSince (RecoversToEither kept next) (D.meaning (disk_of journal.old)) (D.meaning (disk_of journal.new)) }
    ensures within { result ≡ Appended.Done → IsRoomFor (seat_of journal.old) (written_in ready.now) }
    ensures full { (needed limit : ℕ) → result ≡ Appended.Full needed limit → IsFullFor (seat_of journal.old) (written_in ready.now) needed limit }
    ensures untouched { (needed limit : ℕ) → result ≡ Appended.Full needed limit → journal.new ≡ journal.old }
    ensures moved { result ≡ Appended.Done → IsMovedBy (written_in ready.now) (seat_of journal.old) (seat_of journal.new) }
    ensures rests { result ≡ Appended.Disk → IsMovedTo 0 (seat_of journal.old) (seat_of journal.new) }
    ensures ended { (seat_of journal.new).ended ≡ true }
    ensures gated { (seat_of journal.new).bare ≡ false }
    ensures wrote { result ≡ Appended.Disk → WritesSome (written_in ready.now) }
    ensures fits { result ≡ Appended.Disk → IsRoomFor (seat_of journal.old) (written_in ready.now) }
    ensures in_doubt { result ≡ Appended.Disk → (seat_of journal.new).doubt ≢ Doubt.Settled }
    ensures settled { result ≡ Appended.Done → (seat_of journal.new).doubt ≡ Doubt.Settled }
    ensures time { Passes (D.meaning (disk_of journal.old)) (D.meaning (disk_of journal.new)) }
    ensures cost { (D.meaning (disk_of journal.new)).written ≤ (D.meaning (disk_of journal.old)).written + cost_of_written (written_in ready.now) }
    ensures cause { AppendCause result (D.faults (disk_of journal.old)) (D.faults (disk_of journal.new)) }
{
    match &ready.image {
        None => append_frame(journal, &ready.prepared),
        Some(image) => flip_image(journal, image.as_slice()),
    }
}

// Writes the image of what is kept into the other area, as all that stands then. It is free of the
// limit.
fn flip_image<D: Disk>(journal: &mut Journal<D>, image: &[u8]) -> Appended
    requires ended { (seat_of journal.old).ended ≡ true }
    requires gated { (seat_of journal.old).bare ≡ false }
    requires settled { (seat_of journal.old).doubt ≡ Doubt.Settled }
    requires framed { (body : List ℕ) × IsFramed image.now body }
    ensures kept { D.told → (kept next : Kept) → IsKeptOn kept (D.meaning (disk_of journal.old)) (seat_of journal.old) → Begins image.now next
        → result ≡ Appended.Done → IsKeptOn next (D.meaning (disk_of journal.new)) (seat_of journal.new) }
    ensures doubted { D.told → (kept next : Kept) → IsKeptOn kept (D.meaning (disk_of journal.old)) (seat_of journal.old) → Begins image.now next
        → result ≡ Appended.Disk → IsStoodOn kept next (D.meaning (disk_of journal.new)) (seat_of journal.new) }
    ensures any_moment { D.told → (kept next : Kept) → IsKeptOn kept (D.meaning (disk_of journal.old)) (seat_of journal.old) → Begins image.now next
        → LeavesSince (RecoversToEither kept next) (D.meaning (disk_of journal.old)) (D.meaning (disk_of journal.new)) }
    ensures never_full { (needed limit : ℕ) → result ≢ Appended.Full needed limit }
    ensures moved { result ≡ Appended.Done → IsFlippedTo (length image.now) (seat_of journal.old) (seat_of journal.new) }
    ensures rests { result ≡ Appended.Disk → IsMovedTo 0 (seat_of journal.old) (seat_of journal.new) }
    ensures ended { (seat_of journal.new).ended ≡ true }
    ensures gated { (seat_of journal.new).bare ≡ false }
    ensures in_doubt { result ≡ Appended.Disk → (seat_of journal.new).doubt ≢ Doubt.Settled }
    ensures settled { result ≡ Appended.Done → (seat_of journal.new).doubt ≡ Doubt.Settled }
    ensures time { Passes (D.meaning (disk_of journal.old)) (D.meaning (disk_of journal.new)) }
    ensures cost { (D.meaning (disk_of journal.new)).written ≤ (D.meaning (disk_of journal.old)).written + flip_cost (length image.now) }
    ensures cause { AppendCause result (D.faults (disk_of journal.old)) (D.faults (disk_of journal.new)) }
{
    journal.flip(image)
}

// Appends what the prepared step leaves to be kept, where it leaves anything. `Full` leaves the
// journal as it is.
fn append_frame<D: Disk>(journal: &mut Journal<D>, prepared: &Prepared) -> Appended
    requires ended { (seat_of journal.old).ended ≡ true }
    requires gated { (seat_of journal.old).bare ≡ false }
    requires settled { (seat_of journal.old).doubt ≡ Doubt.Settled }
    requires framed { AreFramed prepared.now.framed }
    ensures kept { D.told → (kept next : Kept) → IsKeptOn kept (D.meaning (disk_of journal.old)) (seat_of journal.old) → CarriesTo kept prepared.now.framed next
        → result ≡ Appended.Done → IsKeptOn next (D.meaning (disk_of journal.new)) (seat_of journal.new) }
    ensures doubted { D.told → (kept next : Kept) → IsKeptOn kept (D.meaning (disk_of journal.old)) (seat_of journal.old) → CarriesTo kept prepared.now.framed next
        → result ≡ Appended.Disk → IsStoodOn kept next (D.meaning (disk_of journal.new)) (seat_of journal.new) }
    ensures any_moment { D.told → (kept next : Kept) → IsKeptOn kept (D.meaning (disk_of journal.old)) (seat_of journal.old) → CarriesTo kept prepared.now.framed next
        → LeavesSince (RecoversToEither kept next) (D.meaning (disk_of journal.old)) (D.meaning (disk_of journal.new)) }
    ensures within { result ≡ Appended.Done → IsWithin (seat_of journal.old) prepared.now.framed }
    ensures full { (needed limit : ℕ) → result ≡ Appended.Full needed limit
        → (bytes : List ℕ) × (prepared.now.framed ≡ Some bytes) × IsFullAt (seat_of journal.old) false (length bytes) needed limit }
    ensures untouched { (needed limit : ℕ) → result ≡ Appended.Full needed limit → journal.new ≡ journal.old }
    ensures moved { result ≡ Appended.Done → IsMovedTo (growth prepared.now.framed) (seat_of journal.old) (seat_of journal.new) }
    ensures rests { result ≡ Appended.Disk → IsMovedTo 0 (seat_of journal.old) (seat_of journal.new) }
    ensures ended { (seat_of journal.new).ended ≡ true }
    ensures gated { (seat_of journal.new).bare ≡ false }
    ensures wrote { result ≡ Appended.Disk → (bytes : List ℕ) × (prepared.now.framed ≡ Some bytes) }
    ensures fits { result ≡ Appended.Disk → IsWithin (seat_of journal.old) prepared.now.framed }
    ensures in_doubt { result ≡ Appended.Disk → (seat_of journal.new).doubt ≢ Doubt.Settled }
    ensures settled { result ≡ Appended.Done → (seat_of journal.new).doubt ≡ Doubt.Settled }
    ensures time { Passes (D.meaning (disk_of journal.old)) (D.meaning (disk_of journal.new)) }
    ensures cost { (D.meaning (disk_of journal.new)).written ≤ (D.meaning (disk_of journal.old)).written + written_by prepared.now.framed }
    ensures cause { AppendCause result (D.faults (disk_of journal.old)) (D.faults (disk_of journal.new)) }
{
    match prepared.framed() {
        None => Appended::Done,
        Some(framed) => journal.append(framed, false),
    }
}
