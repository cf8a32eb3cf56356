//! Mounting a disk, and walking over what stands there.
ghost use Rattle.std.specs.Prelude.{◌≡◌, ◌≢◌, ◌≤◌, ◌+◌, ◌^◌, ◌++◌, [], ◌∷◌, ℕ, List, Option, None, Ok, length, take, false, true, IfOk, IfErr, OnOk, OnErr, MatchOption, MatchResult, ⊤};
ghost use Rattle.au_io.specs.Areas.{area_of};
ghost use Rattle.au_io.specs.Disk.{Stays, HasCause};
ghost use Rattle.au_journal.specs.Causes.{FaultCause, WalkCause};
ghost use Rattle.au_journal.specs.Frames.{IsOpen};
ghost use Rattle.au_journal.specs.Images.{Selects};
ghost use Rattle.au_journal.specs.Seats.{IsSettled};
ghost use Rattle.au_journal.specs.Walk.{IsMounted, MountSays, IsWalked, IsBefore, WalkSays, IsStill, IsHeadFault};

use crate::head::{HEAD_BYTES, limit_of, read_head, selected, sync_all};
use crate::walk::{FRAME_HEAD, length_at};
use crate::window::Window;
use crate::{Doubt, Journal, MountFault, Seat};
use au_io::{Area, Disk};

impl<D: Disk> Journal<D> {
    ghost use Rattle.au_journal.specs.Journals.{disk_of, seat_of};

    /// Syncs the three areas, and finds the selected one formatted. What stands there is then walked by
    /// `next_length` and `next_frame`.
    pub fn mount(disk: D) -> Result<Journal<D>, (D, MountFault)>
        ensures mounted { D.told → IfOk result (λ journal. IsMounted (D.meaning (disk_of journal)) (seat_of journal)) }
        ensures settled { IfOk result (λ journal. (seat_of journal).doubt ≡ Doubt.Settled) }
        ensures why { D.told → IfErr result (λ failed. MountSays (D.meaning disk).reads failed.1) }
        ensures stays { MatchResult result (λ journal. Stays (D.meaning disk) (D.meaning (disk_of journal))) (λ failed. Stays (D.meaning disk) (D.meaning failed.0)) }
        ensures cause { MatchResult result (λ journal. D.faults (disk_of journal) ≡ D.faults disk) (λ failed. FaultCause failed.1 (D.faults disk) (D.faults failed.0)) }
    {
        let mut disk = disk;
        match find_seat(&mut disk) {
            Ok(seat) => Ok(Journal {
                disk,
                seat,
                window: Window::new(),
            }),
            Err(why) => Err((disk, why)),
        }
    }

    /// The length of the next body. None at the end of the walk: then the journal stands for the
    /// bodies that were walked.
    pub fn next_length(&mut self) -> Result<Option<u64>, MountFault>
        ensures next { D.told → (bodies : List (List ℕ)) → IsWalked (D.meaning (disk_of self.old)) (seat_of self.old) bodies
            → IfOk result (λ found. MatchOption found (IsSettled (D.meaning (disk_of self.new)) (seat_of self.new) bodies)
            (λ n. IsBefore (D.meaning (disk_of self.new)) (seat_of self.new) n bodies)) }
        ensures why { D.told → (bodies : List (List ℕ)) (walked : IsWalked (D.meaning (disk_of self.old)) (seat_of self.old) bodies)
            → IfErr result (WalkSays walked.rest (seat_of self.old).area (seat_of self.old).used) }
        ensures never_unformatted { IfErr result (λ why. why ≢ MountFault.Unformatted) }
        ensures over { (seat_of self.old).ended ≡ true → (result ≡ Ok None) × (self.new ≡ self.old) }
        ensures ended { IfOk result (λ found. MatchOption found ((seat_of self.new).ended ≡ true) (λ n. (seat_of self.new).reach ≡ (seat_of self.new).used + 9 + n)) }
        ensures reached { IfOk result (λ found. MatchOption found ((seat_of self.old).ended ≡ false → (seat_of self.new).reach ≡ (seat_of self.new).used) (λ _. ⊤)) }
        ensures still { OnErr result (seat_of self.new ≡ seat_of self.old) }
        ensures same { ((seat_of self.new).area ≡ (seat_of self.old).area) × ((seat_of self.new).limit ≡ (seat_of self.old).limit)
            × ((seat_of self.new).used ≡ (seat_of self.old).used) × ((seat_of self.new).doubt ≡ (seat_of self.old).doubt) }
        ensures stays { Stays (D.meaning (disk_of self.old)) (D.meaning (disk_of self.new)) }
        ensures cause { WalkCause result (D.faults (disk_of self.old)) (D.faults (disk_of self.new)) }
    {
        if self.seat.ended {
            return Ok(None);
        }
        let seat = self.seat;
        let found = length_at(
            &mut self.disk,
            &mut self.window,
            seat.area,
            seat.size,
            seat.used,
        )?;
        self.seat = match found {
            None => Seat {
                reach: seat.used,
                ended: true,
                bare: seat.size == seat.used,
                ..seat
            },
            Some(n) => Seat {
                reach: seat.used + FRAME_HEAD as u64 + n,
                ..seat
            },
        };
        Ok(found)
    }

    /// Reads the body whose length the call before gave.
    pub fn next_frame(&mut self, room: &mut [u8]) -> Result<(), MountFault>
        requires before { (seat_of self.old).reach ≡ (seat_of self.old).used + 9 + length room.old }
        ensures next { D.told → (bodies : List (List ℕ)) → IsBefore (D.meaning (disk_of self.old)) (seat_of self.old) (length room.old) bodies
            → OnOk result (IsWalked (D.meaning (disk_of self.new)) (seat_of self.new) (bodies ++ room.new ∷ [])) }
        ensures why { D.told → (bodies : List (List ℕ)) → IsBefore (D.meaning (disk_of self.old)) (seat_of self.old) (length room.old) bodies
            → IfErr result (λ why. why ≡ MountFault.Disk) }
        ensures never_unformatted { IfErr result (λ why. why ≢ MountFault.Unformatted) }
        ensures still { OnErr result (seat_of self.new ≡ seat_of self.old) }
        ensures same { ((seat_of self.new).area ≡ (seat_of self.old).area) × ((seat_of self.new).limit ≡ (seat_of self.old).limit)
            × ((seat_of self.new).doubt ≡ (seat_of self.old).doubt) }
        ensures stays { Stays (D.meaning (disk_of self.old)) (D.meaning (disk_of self.new)) }
        ensures cause { WalkCause result (D.faults (disk_of self.old)) (D.faults (disk_of self.new)) }
    {
        let seat = self.seat;
        let at = seat.used + FRAME_HEAD as u64;
        let count = self.window.read(&mut self.disk, seat.area, at, room)?;
        if count < room.len() {
            // The area became shorter since it was mounted.
            return Err(MountFault::Damaged {
                area: seat.area,
                at: seat.used,
            });
        }
        self.seat = Seat {
            used: seat.reach,
            ..seat
        };
        Ok(())
    }

    /// The used length: where the next gate is. During the walk it is the end of the bodies that were
    /// walked.
    pub fn used(&self) -> u64
        ensures { result ≡ (seat_of self.now).used }
    {
        self.seat.used
    }

    /// The present area: the one that the mount found selected; each `flip` that is done changes it to
    /// the other.
    pub fn area(&self) -> Area
        ensures { result ≡ (seat_of self.now).area }
    {
        self.seat.area
    }

    /// How far the last append or flip came, where it failed and no mend has succeeded since.
    pub fn doubt(&self) -> Doubt
        ensures { result ≡ (seat_of self.now).doubt }
    {
        self.seat.doubt
    }

    /// The disk, as it is.
    pub fn shut(self) -> D
        ensures { result ≡ disk_of self }
    {
        self.disk
    }
}

/// Where the walk begins, after a sync of the three areas.
fn find_seat<D: Disk>(disk: &mut D) -> Result<Seat, MountFault>
    ensures mounted { D.told → IfOk result (IsMounted (D.meaning disk.new)) }
    ensures settled { IfOk result (λ seat. seat.doubt ≡ Doubt.Settled) }
    ensures begins { IfOk result (λ seat. seat.reach ≡ seat.used) }
    ensures bounded { IfOk result (λ seat. (seat.size ≤ 2 ^ 62) × (seat.used ≤ 2 ^ 62) × (seat.reach ≤ 2 ^ 62)) }
    ensures why { D.told → IfErr result (MountSays (D.meaning disk.old).reads) }
    ensures stays { Stays (D.meaning disk.old) (D.meaning disk.new) }
    ensures cause { WalkCause result (D.faults disk.old) (D.faults disk.new) }
{
    sync_all(disk)?;
    let area = selected(disk)?;
    match read_head(disk, area)? {
        Some(head) => first_seat(disk, area, &head),
        None => Err(MountFault::Unformatted),
    }
}

/// Where the walk begins in the selected area, which begins with that head.
fn first_seat<D: Disk>(
    disk: &mut D,
    area: Area,
    head: &[u8; HEAD_BYTES],
) -> Result<Seat, MountFault>
    requires opens { IsOpen head.now }
    ensures mounted { D.told → Selects area (D.meaning disk.old).reads.head → head.now ≡ take 14 (area_of area (D.meaning disk.old).reads)
        → IsStill (D.meaning disk.old) → IfOk result (IsMounted (D.meaning disk.new)) }
    ensures settled { IfOk result (λ seat. seat.doubt ≡ Doubt.Settled) }
    ensures begins { IfOk result (λ seat. seat.reach ≡ seat.used) }
    ensures bounded { IfOk result (λ seat. (seat.size ≤ 2 ^ 62) × (seat.used ≤ 2 ^ 62) × (seat.reach ≤ 2 ^ 62)) }
    ensures why { IfErr result (IsHeadFault head.now area) }
    ensures stays { Stays (D.meaning disk.old) (D.meaning disk.new) }
    ensures cause { WalkCause result (D.faults disk.old) (D.faults disk.new) }
{
    match limit_of(head) {
        Ok(limit) => {
            let size = disk.size(area)?;
            Ok(Seat {
                area,
                limit,
                size,
                used: 13,
                reach: 13,
                ended: false,
                bare: false,
                doubt: Doubt::Settled,
            })
        }
        Err(at) => Err(MountFault::Damaged { area, at }),
    }
}
