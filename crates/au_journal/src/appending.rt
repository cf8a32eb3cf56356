//! The steps of an append, each over one state of the area.
ghost use Rattle.std.specs.Prelude.{◌≡◌, ◌<◌, ◌≤◌, ◌+◌, ◌^◌, ◌++◌, [], ◌∷◌, List, ℕ, true, false, length, IfOk, IfErr, OnOk, MatchResult};
ghost use Rattle.au_io.specs.Areas.{area_of};
ghost use Rattle.au_io.specs.Disk.{Passes};
ghost use Rattle.au_io.specs.Moments.{LeavesSince};
ghost use Rattle.au_journal.specs.Causes.{SeatCause};
ghost use Rattle.au_journal.specs.Images.{IsSafe};
ghost use Rattle.au_journal.specs.Seats.{AppendDoubts, IsSettled, IsDoubted, IsFramed, MayLeave, advanced, left_in, IsUnmoved, with_frame, with_gate};

use crate::gates::{close_gate, open_gate, stage};
use crate::{Doubt, Seat};
use au_io::Disk;

/// Adds a frame behind the used length, where a closed gate stands. `Err` has the seat in doubt.
pub(crate) fn add_frame<D: Disk>(disk: &mut D, seat: Seat, framed: &[u8]) -> Result<Seat, Seat>
    requires short { seat.used ≤ 2 ^ 62 }
    requires gated { seat.bare ≡ false }
    requires within { D.told → seat.used < length (area_of seat.area (D.meaning disk.old).reads) }
    ensures appended { D.told → (bodies : List (List ℕ)) (body : List ℕ) → IsFramed framed.now body → IsSettled (D.meaning disk.old) seat bodies
        → IfOk result (λ new. IsSettled (D.meaning disk.new) new (bodies ++ body ∷ [])) }
    ensures doubted { D.told → (bodies : List (List ℕ)) (body : List ℕ) → IsFramed framed.now body → IsSettled (D.meaning disk.old) seat bodies
        → IfErr result (λ new. IsDoubted (D.meaning disk.new) new bodies (bodies ++ body ∷ [])) }
    ensures any_moment { D.told → (bodies : List (List ℕ)) (body : List ℕ) → IsFramed framed.now body → IsSettled (D.meaning disk.old) seat bodies
        → LeavesSince (MayLeave seat bodies seat.area (bodies ++ body ∷ [])) (D.meaning disk.old) (D.meaning disk.new) }
    ensures reads { D.told → OnOk result ((D.meaning disk.new).reads ≡ with_frame seat framed.now (D.meaning disk.old).reads) }
    ensures safe { OnOk result (IsSafe seat.area (D.meaning disk.new)) }
    ensures advances { IfOk result (λ new. new ≡ advanced (length framed.now) seat) }
    ensures in_doubt { IfErr result (λ new. AppendDoubts new.doubt) }
    ensures rests { IfErr result (IsUnmoved seat) }
    ensures short { IfOk result (λ new. (new.used ≤ 2 ^ 62) × (new.reach ≤ 2 ^ 62)) }
    ensures time { Passes (D.meaning disk.old) (D.meaning disk.new) }
    ensures cost { (D.meaning disk.new).written ≤ (D.meaning disk.old).written + length framed.now + 1 }
    ensures cause { SeatCause result (D.faults disk.old) (D.faults disk.new) }
{
    if stage(disk, seat.area, seat.used, framed).is_err() {
        return Err(Seat {
            doubt: Doubt::Body,
            ..seat
        });
    }
    // What is behind the gate is on the disk before the gate opens.
    if open_gate(disk, seat.area, seat.used).is_err() {
        return Err(Seat {
            doubt: Doubt::Gate,
            ..seat
        });
    }
    let used = seat.used + framed.len() as u64;
    Ok(Seat {
        used,
        reach: used,
        bare: false,
        doubt: Doubt::Settled,
        ..seat
    })
}

/// Puts a closed gate at the end of an area that stops at the used length. `Err` has the seat in
/// doubt.
pub(crate) fn close_end<D: Disk>(disk: &mut D, seat: Seat) -> Result<Seat, Seat>
    requires bare { seat.bare ≡ true }
    requires within { D.told → seat.used ≤ length (area_of seat.area (D.meaning disk.old).reads) }
    ensures closed { D.told → (bodies : List (List ℕ)) → IsSettled (D.meaning disk.old) seat bodies
        → IfOk result (λ new. IsSettled (D.meaning disk.new) new bodies) }
    ensures doubted { D.told → (bodies others : List (List ℕ)) → IsSettled (D.meaning disk.old) seat bodies
        → IfErr result (λ new. IsDoubted (D.meaning disk.new) new bodies others) }
    ensures any_moment { D.told → (bodies others : List (List ℕ)) → IsSettled (D.meaning disk.old) seat bodies
        → LeavesSince (MayLeave seat bodies seat.area others) (D.meaning disk.old) (D.meaning disk.new) }
    ensures reads { D.told → OnOk result ((D.meaning disk.new).reads ≡ with_gate seat (D.meaning disk.old).reads) }
    ensures within { D.told → OnOk result (seat.used < length (area_of seat.area (D.meaning disk.new).reads)) }
    ensures advances { IfOk result (λ new. new ≡ left_in Doubt.Settled false seat) }
    ensures in_doubt { IfErr result (λ new. AppendDoubts new.doubt) }
    ensures rests { IfErr result (λ new. new ≡ left_in Doubt.Edge true seat) }
    ensures time { Passes (D.meaning disk.old) (D.meaning disk.new) }
    ensures cost { (D.meaning disk.new).written ≤ (D.meaning disk.old).written + 1 }
    ensures cause { SeatCause result (D.faults disk.old) (D.faults disk.new) }
{
    if close_gate(disk, seat.area, seat.used).is_err() {
        return Err(Seat {
            bare: true,
            doubt: Doubt::Edge,
            ..seat
        });
    }
    Ok(Seat {
        bare: false,
        doubt: Doubt::Settled,
        ..seat
    })
}
