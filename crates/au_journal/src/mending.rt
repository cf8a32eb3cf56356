//! What ends a doubt.
ghost use Rattle.std.specs.Prelude.{◌≡◌, ◌≢◌, ◌≤◌, ◌+◌, List, ℕ, length, IfOk, IsErr, OnOk};
ghost use Rattle.au_io.specs.Areas.{area_of};
ghost use Rattle.au_io.specs.Disk.{Passes, Stays, HasCause};
ghost use Rattle.au_io.specs.declared.disk.Area.TheVariants as area;
ghost use Rattle.au_io.specs.Moments.{Leaves, LeavesSince};
ghost use Rattle.au_journal.specs.Causes.{SeatCause};
ghost use Rattle.au_journal.specs.Frames.{front};
ghost use Rattle.au_journal.specs.Images.{EndsIn, In, IsSafe};
ghost use Rattle.au_journal.specs.Seats.{BothStand, IsHeadDoubted, IsSettled, IsDoubted, IsSynced, MayLeave, NeedsSyncAlone, mend_bytes, mended, mended_reads, there_of, with_letter};

use crate::gates::close_gate;
use crate::synced::select;
use crate::{Doubt, Seat};
use au_io::{Area, Disk, Failed};

/// Makes the journal stand for the bodies alone.
pub(crate) fn mend_seat<D: Disk>(disk: &mut D, seat: Seat) -> Result<Seat, Failed>
    requires within { D.told → seat.used ≤ length (area_of seat.area (D.meaning disk.old).reads) }
    ensures mended { D.told → (bodies others : List (List ℕ)) → IsDoubted (D.meaning disk.old) seat bodies others
        → IfOk result (λ new. IsSettled (D.meaning disk.new) new bodies) }
    ensures doubted { (bodies others : List (List ℕ)) → IsDoubted (D.meaning disk.old) seat bodies others
        → IsDoubted (D.meaning disk.new) seat bodies others }
    ensures any_moment { (bodies others : List (List ℕ)) → IsDoubted (D.meaning disk.old) seat bodies others
        → LeavesSince (MayLeave seat bodies (there_of seat.doubt seat.area) others) (D.meaning disk.old) (D.meaning disk.new) }
    ensures still { seat.doubt ≡ Doubt.Settled → disk.new ≡ disk.old }
    ensures reads { D.told → OnOk result ((D.meaning disk.new).reads ≡ mended_reads seat.doubt seat (D.meaning disk.old).reads) }
    ensures synced { OnOk result (IsSynced seat.doubt seat (D.meaning disk.new)) }
    ensures only_syncs { NeedsSyncAlone seat.doubt → Stays (D.meaning disk.old) (D.meaning disk.new) }
    ensures stood { IsErr result → seat.doubt ≢ Doubt.Settled }
    ensures mends { IfOk result (λ new. new ≡ mended seat) }
    ensures time { Passes (D.meaning disk.old) (D.meaning disk.new) }
    ensures cost { (D.meaning disk.new).written ≤ (D.meaning disk.old).written + mend_bytes seat.doubt }
    ensures cause { SeatCause result (D.faults disk.old) (D.faults disk.new) }
{
    clear_doubt(disk, seat)?;
    Ok(settled(seat))
}

/// The calls of the disk that end a doubt.
fn clear_doubt<D: Disk>(disk: &mut D, seat: Seat) -> Result<(), Failed>
    requires within { D.told → seat.used ≤ length (area_of seat.area (D.meaning disk.old).reads) }
    ensures mended { D.told → (bodies others : List (List ℕ)) → IsDoubted (D.meaning disk.old) seat bodies others
        → OnOk result (IsSettled (D.meaning disk.new) (mended seat) bodies) }
    ensures doubted { (bodies others : List (List ℕ)) → IsDoubted (D.meaning disk.old) seat bodies others
        → IsDoubted (D.meaning disk.new) seat bodies others }
    ensures any_moment { (bodies others : List (List ℕ)) → IsDoubted (D.meaning disk.old) seat bodies others
        → LeavesSince (MayLeave seat bodies (there_of seat.doubt seat.area) others) (D.meaning disk.old) (D.meaning disk.new) }
    ensures still { seat.doubt ≡ Doubt.Settled → disk.new ≡ disk.old }
    ensures reads { D.told → OnOk result ((D.meaning disk.new).reads ≡ mended_reads seat.doubt seat (D.meaning disk.old).reads) }
    ensures synced { OnOk result (IsSynced seat.doubt seat (D.meaning disk.new)) }
    ensures only_syncs { NeedsSyncAlone seat.doubt → Stays (D.meaning disk.old) (D.meaning disk.new) }
    ensures stood { IsErr result → seat.doubt ≢ Doubt.Settled }
    ensures time { Passes (D.meaning disk.old) (D.meaning disk.new) }
    ensures cost { (D.meaning disk.new).written ≤ (D.meaning disk.old).written + mend_bytes seat.doubt }
    ensures cause { HasCause (D.faults disk.old) (D.faults disk.new) result }
{
    match seat.doubt {
        Doubt::Settled => Ok(()),
        // The gate's byte is synced as it is.
        Doubt::Body => disk.sync(seat.area),
        Doubt::Gate => close_gate(disk, seat.area, seat.used),
        Doubt::Edge => close_gate(disk, seat.area, seat.used),
        // So is the letter in Head.
        Doubt::Other => disk.sync(Area::Head),
        Doubt::Head => select_present(disk, seat),
    }
}

/// Selects the present area again, where both stand.
fn select_present<D: Disk>(disk: &mut D, seat: Seat) -> Result<(), Failed>
    ensures selected { D.told → (bodies others : List (List ℕ)) → IsHeadDoubted (D.meaning disk.old) seat bodies others
        → OnOk result (Leaves (In seat.area (EndsIn seat.bare (front seat.limit bodies))) (D.meaning disk.new)) }
    ensures any_moment { (bodies others : List (List ℕ)) → IsHeadDoubted (D.meaning disk.old) seat bodies others
        → LeavesSince (BothStand seat bodies others) (D.meaning disk.old) (D.meaning disk.new) }
    ensures reads { D.told → OnOk result ((D.meaning disk.new).reads ≡ with_letter seat.area (D.meaning disk.old).reads) }
    ensures safe { OnOk result (IsSafe area.Head (D.meaning disk.new)) }
    ensures time { Passes (D.meaning disk.old) (D.meaning disk.new) }
    ensures cost { (D.meaning disk.new).written ≤ (D.meaning disk.old).written + 1 }
    ensures cause { HasCause (D.faults disk.old) (D.faults disk.new) result }
{
    select(disk, seat.area)
}

/// The seat once no body is in doubt.
fn settled(seat: Seat) -> Seat
    ensures { result ≡ mended seat }
{
    let bare = match seat.doubt {
        Doubt::Edge => false,
        _ => seat.bare,
    };
    Seat {
        bare,
        doubt: Doubt::Settled,
        ..seat
    }
}
