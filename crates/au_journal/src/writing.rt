//! Adding a body to a journal, changing its area, and mending what failed.
ghost use Rattle.std.specs.Prelude.{◌≡◌, ◌↔◌, ◌<◌, ◌≤◌, ◌+◌, ◌^◌, ◌≢◌, ◌++◌, [], ◌∷◌, List, ℕ, true, false, length, IfOk, IfErr, OnOk};
ghost use Rattle.au_io.specs.declared.disk.Area.TheVariants as area;
ghost use Rattle.au_io.specs.Areas.{area_of};
ghost use Rattle.au_io.specs.Disk.{Passes, Stays};
ghost use Rattle.au_io.specs.Moments.{LeavesSince};
ghost use Rattle.au_journal.specs.Causes.{SeatCause};
ghost use Rattle.au_journal.specs.Images.{IsSafe};
ghost use Rattle.au_journal.specs.Lengths.{gate_bytes};
ghost use Rattle.au_journal.specs.Seats.{AppendDoubts, IsSettled, IsDoubted, IsFramed, IsUnmoved, MayLeave, advanced, with_frame};

use crate::appending::{add_frame, close_end};
use crate::flipping::flip_seat;
use crate::mending::mend_seat;
use crate::{Appended, Doubt, Journal, Mended, Seat};
use au_io::Disk;

/// Adds a frame, behind a gate that is put there first where the area has none. `Err` has the seat
/// in doubt.
fn append_at<D: Disk>(disk: &mut D, seat: Seat, framed: &[u8]) -> Result<Seat, Seat>
    requires short { seat.used ≤ 2 ^ 62 }
    requires within { D.told → seat.used ≤ length (area_of seat.area (D.meaning disk.old).reads) }
    requires gated { D.told → seat.bare ≡ false → seat.used < length (area_of seat.area (D.meaning disk.old).reads) }
    ensures appended { D.told → (bodies : List (List ℕ)) (body : List ℕ) → IsFramed framed.now body → IsSettled (D.meaning disk.old) seat bodies
        → IfOk result (λ new. IsSettled (D.meaning disk.new) new (bodies ++ body ∷ [])) }
    ensures doubted { D.told → (bodies : List (List ℕ)) (body : List ℕ) → IsFramed framed.now body → IsSettled (D.meaning disk.old) seat bodies
        → IfErr result (λ new. IsDoubted (D.meaning disk.new) new bodies (bodies ++ body ∷ [])) }
    ensures any_moment { D.told → (bodies : List (List ℕ)) (body : List ℕ) → IsFramed framed.now body → IsSettled (D.meaning disk.old) seat bodies
        → LeavesSince (MayLeave seat bodies seat.area (bodies ++ body ∷ [])) (D.meaning disk.old) (D.meaning disk.new) }
    ensures reads { D.told → OnOk result ((D.meaning disk.new).reads ≡ with_frame seat framed.now (D.meaning disk.old).reads) }
    ensures safe { OnOk result (IsSafe seat.area (D.meaning disk.new)) }
    ensures advances { IfOk result (λ new. new ≡ advanced (length framed.now) seat) }
    ensures in_doubt { IfErr result (λ new. AppendDoubts new.doubt) }
    ensures rests { IfErr result (IsUnmoved seat) }
    ensures short { IfOk result (λ new. (new.used ≤ 2 ^ 62) × (new.reach ≤ 2 ^ 62)) }
    ensures time { Passes (D.meaning disk.old) (D.meaning disk.new) }
    ensures cost { (D.meaning disk.new).written ≤ (D.meaning disk.old).written + length framed.now + gate_bytes seat.bare }
    ensures cause { SeatCause result (D.faults disk.old) (D.faults disk.new) }
{
    if seat.bare {
        match close_end(disk, seat) {
            Ok(closed) => add_frame(disk, closed, framed),
            Err(doubted) => Err(doubted),
        }
    } else {
        add_frame(disk, seat, framed)
    }
}

impl<D: Disk> Journal<D> {
    ghost use Rattle.au_journal.specs.Journals.{disk_of, seat_of};
    ghost use Rattle.au_journal.specs.Causes.{AppendCause, MendCause};
    ghost use Rattle.au_journal.specs.Images.{other_of};
    ghost use Rattle.au_journal.specs.Lengths.{flip_cost};
    ghost use Rattle.au_journal.specs.Seats.{FlipDoubts, IsFullAt, IsSynced, NeedsSyncAlone, flipped, mend_bytes, mended, mended_reads, there_of, with_image};

    /// Adds a body, given as framed bytes: its length, the body and a closed gate. Never `Full` where
    /// it is free of the limit. Both syncs of `Done` have been made.
    pub fn append(&mut self, framed: &[u8], free: bool) -> Appended
        requires ended { (seat_of self.old).ended ≡ true }
        requires settled { (seat_of self.old).doubt ≡ Doubt.Settled }
        requires framed { (body : List ℕ) × IsFramed framed.now body }
        ensures appended { D.told → (bodies : List (List ℕ)) (body : List ℕ) → IsFramed framed.now body → IsSettled (D.meaning (disk_of self.old)) (seat_of self.old) bodies
            → result ≡ Appended.Done → IsSettled (D.meaning (disk_of self.new)) (seat_of self.new) (bodies ++ body ∷ []) }
        ensures doubted { D.told → (bodies : List (List ℕ)) (body : List ℕ) → IsFramed framed.now body → IsSettled (D.meaning (disk_of self.old)) (seat_of self.old) bodies
            → result ≡ Appended.Disk → IsDoubted (D.meaning (disk_of self.new)) (seat_of self.new) bodies (bodies ++ body ∷ []) }
        ensures any_moment { D.told → (bodies : List (List ℕ)) (body : List ℕ) → IsFramed framed.now body → IsSettled (D.meaning (disk_of self.old)) (seat_of self.old) bodies
            → LeavesSince (MayLeave (seat_of self.old) bodies (seat_of self.old).area (bodies ++ body ∷ [])) (D.meaning (disk_of self.old)) (D.meaning (disk_of self.new)) }
        ensures reads { D.told → result ≡ Appended.Done → (D.meaning (disk_of self.new)).reads ≡ with_frame (seat_of self.old) framed.now (D.meaning (disk_of self.old)).reads }
        ensures safe { result ≡ Appended.Done → IsSafe (seat_of self.old).area (D.meaning (disk_of self.new)) }
        ensures full { (needed limit : ℕ) → result ≡ Appended.Full needed limit ↔ IsFullAt (seat_of self.old) free (length framed.now) needed limit }
        ensures untouched { (needed limit : ℕ) → result ≡ Appended.Full needed limit → self.new ≡ self.old }
        ensures advances { result ≡ Appended.Done → seat_of self.new ≡ advanced (length framed.now) (seat_of self.old) }
        ensures ended { (seat_of self.new).ended ≡ true }
        ensures in_doubt { result ≡ Appended.Disk → AppendDoubts (seat_of self.new).doubt }
        ensures rests { result ≡ Appended.Disk → IsUnmoved (seat_of self.old) (seat_of self.new) }
        ensures time { Passes (D.meaning (disk_of self.old)) (D.meaning (disk_of self.new)) }
        ensures cost { (D.meaning (disk_of self.new)).written ≤ (D.meaning (disk_of self.old)).written + length framed.now + gate_bytes (seat_of self.old).bare }
        ensures cause { AppendCause result (D.faults (disk_of self.old)) (D.faults (disk_of self.new)) }
    {
        let needed = self.seat.used + framed.len() as u64 + 1;
        let limit = u64::from(self.seat.limit);
        if !free && needed > limit {
            return Appended::Full { needed, limit };
        }
        self.window.clear();
        match append_at(&mut self.disk, self.seat, framed) {
            Ok(seat) => {
                self.seat = seat;
                Appended::Done
            }
            Err(seat) => {
                self.seat = seat;
                Appended::Disk
            }
        }
    }

    /// Makes the journal stand for one body alone, given as framed bytes: it is written into the other
    /// area, which is then the present one. Never `Full`. The syncs of both areas have been made at `Done`.
    pub fn flip(&mut self, framed: &[u8]) -> Appended
        requires ended { (seat_of self.old).ended ≡ true }
        requires settled { (seat_of self.old).doubt ≡ Doubt.Settled }
        requires framed { (body : List ℕ) × IsFramed framed.now body }
        ensures flipped { D.told → (bodies : List (List ℕ)) (body : List ℕ) → IsFramed framed.now body → IsSettled (D.meaning (disk_of self.old)) (seat_of self.old) bodies
            → result ≡ Appended.Done → IsSettled (D.meaning (disk_of self.new)) (seat_of self.new) (body ∷ []) }
        ensures doubted { D.told → (bodies : List (List ℕ)) (body : List ℕ) → IsFramed framed.now body → IsSettled (D.meaning (disk_of self.old)) (seat_of self.old) bodies
            → result ≡ Appended.Disk → IsDoubted (D.meaning (disk_of self.new)) (seat_of self.new) bodies (body ∷ []) }
        ensures any_moment { D.told → (bodies : List (List ℕ)) (body : List ℕ) → IsFramed framed.now body → IsSettled (D.meaning (disk_of self.old)) (seat_of self.old) bodies
            → LeavesSince (MayLeave (seat_of self.old) bodies (other_of (seat_of self.old).area) (body ∷ [])) (D.meaning (disk_of self.old)) (D.meaning (disk_of self.new)) }
        ensures reads { D.told → result ≡ Appended.Done → (D.meaning (disk_of self.new)).reads ≡ with_image (seat_of self.old) framed.now (D.meaning (disk_of self.old)).reads }
        ensures safe { D.told → result ≡ Appended.Done → IsSafe (seat_of self.new).area (D.meaning (disk_of self.new)) × IsSafe area.Head (D.meaning (disk_of self.new)) }
        ensures never_full { (needed limit : ℕ) → result ≢ Appended.Full needed limit }
        ensures moves { result ≡ Appended.Done → seat_of self.new ≡ flipped (length framed.now) (seat_of self.old) }
        ensures ended { (seat_of self.new).ended ≡ true }
        ensures in_doubt { result ≡ Appended.Disk → FlipDoubts (seat_of self.new).doubt }
        ensures rests { result ≡ Appended.Disk → IsUnmoved (seat_of self.old) (seat_of self.new) }
        ensures time { Passes (D.meaning (disk_of self.old)) (D.meaning (disk_of self.new)) }
        ensures cost { (D.meaning (disk_of self.new)).written ≤ (D.meaning (disk_of self.old)).written + flip_cost (length framed.now) }
        ensures cause { AppendCause result (D.faults (disk_of self.old)) (D.faults (disk_of self.new)) }
    {
        self.window.clear();
        match flip_seat(&mut self.disk, self.seat, framed) {
            Ok(seat) => {
                self.seat = seat;
                Appended::Done
            }
            Err(seat) => {
                self.seat = seat;
                Appended::Disk
            }
        }
    }

    /// After an append or a flip that failed: makes the journal stand for the bodies before it.
    pub fn mend(&mut self) -> Mended
        requires ended { (seat_of self.old).ended ≡ true }
        ensures mended { D.told → (bodies others : List (List ℕ)) → IsDoubted (D.meaning (disk_of self.old)) (seat_of self.old) bodies others
            → result ≡ Mended.Done → IsSettled (D.meaning (disk_of self.new)) (seat_of self.new) bodies }
        ensures doubted { (bodies others : List (List ℕ)) → IsDoubted (D.meaning (disk_of self.old)) (seat_of self.old) bodies others
            → result ≡ Mended.Disk → IsDoubted (D.meaning (disk_of self.new)) (seat_of self.new) bodies others }
        ensures any_moment { (bodies others : List (List ℕ)) → IsDoubted (D.meaning (disk_of self.old)) (seat_of self.old) bodies others
            → LeavesSince (MayLeave (seat_of self.old) bodies (there_of (seat_of self.old).doubt (seat_of self.old).area) others) (D.meaning (disk_of self.old)) (D.meaning (disk_of self.new)) }
        ensures still { (seat_of self.old).doubt ≡ Doubt.Settled → disk_of self.new ≡ disk_of self.old }
        ensures reads { D.told → result ≡ Mended.Done → (D.meaning (disk_of self.new)).reads ≡ mended_reads (seat_of self.old).doubt (seat_of self.old) (D.meaning (disk_of self.old)).reads }
        ensures only_syncs { NeedsSyncAlone (seat_of self.old).doubt → Stays (D.meaning (disk_of self.old)) (D.meaning (disk_of self.new)) }
        ensures stood { result ≡ Mended.Disk → (seat_of self.old).doubt ≢ Doubt.Settled }
        ensures synced { result ≡ Mended.Done → IsSynced (seat_of self.old).doubt (seat_of self.old) (D.meaning (disk_of self.new)) }
        ensures mends { result ≡ Mended.Done → seat_of self.new ≡ mended (seat_of self.old) }
        ensures rests { result ≡ Mended.Disk → seat_of self.new ≡ seat_of self.old }
        ensures ended { (seat_of self.new).ended ≡ true }
        ensures time { Passes (D.meaning (disk_of self.old)) (D.meaning (disk_of self.new)) }
        ensures cost { (D.meaning (disk_of self.new)).written ≤ (D.meaning (disk_of self.old)).written + mend_bytes (seat_of self.old).doubt }
        ensures cause { MendCause result (D.faults (disk_of self.old)) (D.faults (disk_of self.new)) }
    {
        self.window.clear();
        match mend_seat(&mut self.disk, self.seat) {
            Ok(seat) => {
                self.seat = seat;
                Mended::Done
            }
            Err(_) => Mended::Disk,
        }
    }
}
