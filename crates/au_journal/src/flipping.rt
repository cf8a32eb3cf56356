//! The steps of a flip: the other area is written whole, and then selected.
ghost use Rattle.std.specs.Prelude.{◌≡◌, ◌≤◌, ◌+◌, ◌^◌, ◌++◌, [], ◌∷◌, List, ℕ, length, OnOk, IfOk, IfErr};
ghost use Rattle.au_io.specs.declared.disk.Area.TheVariants as area;
ghost use Rattle.au_io.specs.Areas.{Areas, with_area, On};
ghost use Rattle.au_io.specs.Disk.{Passes, Follows, HasCause};
ghost use Rattle.au_io.specs.Moments.{Leaves, LeavesSince};
ghost use Rattle.au_journal.specs.Causes.{SeatCause};
ghost use Rattle.au_journal.specs.Frames.{front, new_head, new_rest};
ghost use Rattle.au_journal.specs.Images.{AnyBytes, Closed, EndsIn, In, IsSafe, other_of};
ghost use Rattle.au_journal.specs.Lengths.{flip_cost};
ghost use Rattle.au_journal.specs.Seats.{BothStand, FlipDoubts, IsFramed, IsDoubted, IsSettled, IsUnmoved, MayLeave, OtherWritten, flipped, with_image, with_letter};

use crate::creation::head_of;
use crate::gates::OPEN;
use crate::head::HEAD_BYTES;
use crate::synced::select;
use crate::{Doubt, Seat};
use au_io::{Area, Disk, Failed};

/// Makes the whole of an area anew: its head and one frame, in two writes, so that no memory is
/// taken, and syncs it.
fn write_area<D: Disk>(disk: &mut D, area: Area, limit: u32, framed: &[u8]) -> Result<(), Failed>
    ensures reads { D.told → OnOk result ((D.meaning disk.new).reads ≡ with_area area (165 ∷ new_rest limit framed.now) (D.meaning disk.old).reads) }
    ensures safe { OnOk result (IsSafe area (D.meaning disk.new)) }
    ensures bounded { OnOk result (14 + length framed.now ≤ 2 ^ 62) }
    ensures crash { Follows (On area AnyBytes) (D.meaning disk.old) (D.meaning disk.new) }
    ensures time { Passes (D.meaning disk.old) (D.meaning disk.new) }
    ensures cost { (D.meaning disk.new).written ≤ (D.meaning disk.old).written + 14 + length framed.now }
    ensures cause { HasCause (D.faults disk.old) (D.faults disk.new) result }
{
    disk.cut(area, 0)?;
    disk.write_at(area, 0, &whole_head_of(limit))?;
    disk.write_at(area, HEAD_BYTES as u64, framed)?;
    disk.sync(area)
}

fn whole_head_of(limit: u32) -> [u8; HEAD_BYTES]
    ensures { result ≡ 165 ∷ new_head limit }
{
    let [a, b, c, d, e, f, g, h, i, j, k, l, m] = head_of(limit);
    [OPEN, a, b, c, d, e, f, g, h, i, j, k, l, m]
}

/// To other area written.
fn write_other<D: Disk>(disk: &mut D, seat: Seat, framed: &[u8]) -> Result<(), Failed>
    ensures written { D.told → (bodies : List (List ℕ)) (body : List ℕ) → IsFramed framed.now body → IsSettled (D.meaning disk.old) seat bodies
        → OnOk result (Leaves (OtherWritten seat bodies (body ∷ [])) (D.meaning disk.new)) }
    ensures any_moment { (bodies : List (List ℕ)) → IsSettled (D.meaning disk.old) seat bodies
        → LeavesSince (In seat.area (EndsIn seat.bare (front seat.limit bodies))) (D.meaning disk.old) (D.meaning disk.new) }
    ensures reads { D.told → OnOk result ((D.meaning disk.new).reads ≡ with_area (other_of seat.area) (165 ∷ new_rest seat.limit framed.now) (D.meaning disk.old).reads) }
    ensures safe { OnOk result (IsSafe (other_of seat.area) (D.meaning disk.new)) }
    ensures bounded { OnOk result (14 + length framed.now ≤ 2 ^ 62) }
    ensures time { Passes (D.meaning disk.old) (D.meaning disk.new) }
    ensures cost { (D.meaning disk.new).written ≤ (D.meaning disk.old).written + 14 + length framed.now }
    ensures cause { HasCause (D.faults disk.old) (D.faults disk.new) result }
{
    write_area(disk, beside(seat.area), seat.limit, framed)
}

/// From other area written to the end.
fn select_other<D: Disk>(disk: &mut D, seat: Seat) -> Result<(), Failed>
    ensures selected { D.told → (bodies others : List (List ℕ)) → Leaves (OtherWritten seat bodies others) (D.meaning disk.old)
        → OnOk result (Leaves (In (other_of seat.area) (Closed (front seat.limit others))) (D.meaning disk.new)) }
    ensures any_moment { (bodies others : List (List ℕ)) → Leaves (OtherWritten seat bodies others) (D.meaning disk.old)
        → LeavesSince (BothStand seat bodies others) (D.meaning disk.old) (D.meaning disk.new) }
    ensures reads { D.told → OnOk result ((D.meaning disk.new).reads ≡ with_letter (other_of seat.area) (D.meaning disk.old).reads) }
    ensures safe { D.told → OnOk result (IsSafe area.Head (D.meaning disk.new)) }
    ensures other_safe { D.told → IsSafe (other_of seat.area) (D.meaning disk.old) → OnOk result (IsSafe (other_of seat.area) (D.meaning disk.new)) }
    ensures time { Passes (D.meaning disk.old) (D.meaning disk.new) }
    ensures cost { (D.meaning disk.new).written ≤ (D.meaning disk.old).written + 1 }
    ensures cause { HasCause (D.faults disk.old) (D.faults disk.new) result }
{
    select(disk, beside(seat.area))
}

/// Makes the journal stand for one body, in the other area. `Err` has the seat in doubt.
pub(crate) fn flip_seat<D: Disk>(disk: &mut D, seat: Seat, framed: &[u8]) -> Result<Seat, Seat>
    ensures flipped { D.told → (bodies : List (List ℕ)) (body : List ℕ) → IsFramed framed.now body → IsSettled (D.meaning disk.old) seat bodies
        → IfOk result (λ new. IsSettled (D.meaning disk.new) new (body ∷ [])) }
    ensures doubted { D.told → (bodies : List (List ℕ)) (body : List ℕ) → IsFramed framed.now body → IsSettled (D.meaning disk.old) seat bodies
        → IfErr result (λ new. IsDoubted (D.meaning disk.new) new bodies (body ∷ [])) }
    ensures any_moment { D.told → (bodies : List (List ℕ)) (body : List ℕ) → IsFramed framed.now body → IsSettled (D.meaning disk.old) seat bodies
        → LeavesSince (MayLeave seat bodies (other_of seat.area) (body ∷ [])) (D.meaning disk.old) (D.meaning disk.new) }
    ensures reads { D.told → OnOk result ((D.meaning disk.new).reads ≡ with_image seat framed.now (D.meaning disk.old).reads) }
    ensures safe { D.told → OnOk result (IsSafe (other_of seat.area) (D.meaning disk.new) × IsSafe area.Head (D.meaning disk.new)) }
    ensures moves { IfOk result (λ new. new ≡ flipped (length framed.now) seat) }
    ensures in_doubt { IfErr result (λ new. FlipDoubts new.doubt) }
    ensures rests { IfErr result (IsUnmoved seat) }
    ensures short { IfOk result (λ new. (new.used ≤ 2 ^ 62) × (new.reach ≤ 2 ^ 62)) }
    ensures time { Passes (D.meaning disk.old) (D.meaning disk.new) }
    ensures cost { (D.meaning disk.new).written ≤ (D.meaning disk.old).written + flip_cost (length framed.now) }
    ensures cause { SeatCause result (D.faults disk.old) (D.faults disk.new) }
{
    if write_other(disk, seat, framed).is_err() {
        return Err(Seat {
            doubt: Doubt::Other,
            ..seat
        });
    }
    // The other area is on the disk before it is selected.
    if select_other(disk, seat).is_err() {
        return Err(Seat {
            doubt: Doubt::Head,
            ..seat
        });
    }
    let used = HEAD_BYTES as u64 - 1 + framed.len() as u64;
    Ok(Seat {
        area: beside(seat.area),
        used,
        reach: used,
        bare: false,
        doubt: Doubt::Settled,
        ..seat
    })
}

fn beside(area: Area) -> Area
    ensures { result ≡ other_of area }
{
    match area {
        Area::Head => Area::Head,
        Area::A => Area::B,
        Area::B => Area::A,
    }
}
