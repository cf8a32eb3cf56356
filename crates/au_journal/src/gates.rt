//! The steps of an append and of a mend, two calls of the disk each.
ghost use Rattle.std.specs.Prelude.{◌≡◌, ◌<◌, ◌≤◌, ◌+◌, ◌^◌, ◌++◌, [], ◌∷◌, List, ℕ, length, OnOk};
ghost use Rattle.au_io.specs.Areas.{area_of, with_area, overwritten};
ghost use Rattle.au_io.specs.Disk.{Passes, HasCause};
ghost use Rattle.au_io.specs.Moments.{Leaves, LeavesSince};
ghost use Rattle.au_journal.specs.Images.{Closed, Staged, Doubted, TornEnd, In, IsSafe};

use crate::synced::write_synced;
use au_io::{Area, Disk, Failed};

/// The byte of an open gate. Any other is closed.
pub(crate) const OPEN: u8 = 0xa5;

/// The byte that closes a gate.
pub(crate) const SHUT: u8 = 0;

/// Writes behind the closed gate, and syncs.
pub(crate) fn stage<D: Disk>(
    disk: &mut D,
    area: Area,
    used: u64,
    bytes: &[u8],
) -> Result<(), Failed>
    requires short { used ≤ 2 ^ 62 }
    requires within { D.told → used < length (area_of area (D.meaning disk.old).reads) }
    ensures staged { D.told → (front : List ℕ) → used ≡ length front → Leaves (In area (Closed front)) (D.meaning disk.old)
        → OnOk result (Leaves (In area (Staged front bytes.now)) (D.meaning disk.new)) }
    ensures any_moment { (front : List ℕ) → used ≡ length front → Leaves (In area (Closed front)) (D.meaning disk.old)
        → LeavesSince (In area (Closed front)) (D.meaning disk.old) (D.meaning disk.new) }
    ensures reads { D.told → OnOk result ((D.meaning disk.new).reads
        ≡ with_area area (overwritten (area_of area (D.meaning disk.old).reads) (used + 1) bytes.now) (D.meaning disk.old).reads) }
    ensures time { Passes (D.meaning disk.old) (D.meaning disk.new) }
    ensures cost { (D.meaning disk.new).written ≤ (D.meaning disk.old).written + length bytes.now }
    ensures short { OnOk result (used + 1 + length bytes.now ≤ 2 ^ 62) }
    ensures cause { HasCause (D.faults disk.old) (D.faults disk.new) result }
{
    write_synced(disk, area, used + 1, bytes)
}

/// Opens the gate before bytes that are synced, and syncs.
pub(crate) fn open_gate<D: Disk>(disk: &mut D, area: Area, used: u64) -> Result<(), Failed>
    requires within { D.told → used < length (area_of area (D.meaning disk.old).reads) }
    ensures opened { D.told → (front inner : List ℕ) → used ≡ length front → Leaves (In area (Staged front (inner ++ 0 ∷ []))) (D.meaning disk.old)
        → OnOk result (Leaves (In area (Closed (front ++ 165 ∷ inner))) (D.meaning disk.new)) }
    ensures any_moment { (front bytes : List ℕ) → used ≡ length front → Leaves (In area (Staged front bytes)) (D.meaning disk.old)
        → LeavesSince (In area (Doubted front bytes)) (D.meaning disk.old) (D.meaning disk.new) }
    ensures reads { D.told → OnOk result ((D.meaning disk.new).reads
        ≡ with_area area (overwritten (area_of area (D.meaning disk.old).reads) used (165 ∷ [])) (D.meaning disk.old).reads) }
    ensures safe { OnOk result (IsSafe area (D.meaning disk.new)) }
    ensures time { Passes (D.meaning disk.old) (D.meaning disk.new) }
    ensures cost { (D.meaning disk.new).written ≤ (D.meaning disk.old).written + 1 }
    ensures cause { HasCause (D.faults disk.old) (D.faults disk.new) result }
{
    write_synced(disk, area, used, &[OPEN])
}

/// Closes a gate that is in doubt, or an area that ends where its gate should be, and syncs.
pub(crate) fn close_gate<D: Disk>(disk: &mut D, area: Area, used: u64) -> Result<(), Failed>
    requires within { D.told → used ≤ length (area_of area (D.meaning disk.old).reads) }
    ensures closed { D.told → (front bytes : List ℕ) → used ≡ length front → Leaves (In area (Doubted front bytes)) (D.meaning disk.old)
        → OnOk result (Leaves (In area (Closed front)) (D.meaning disk.new)) }
    ensures any_moment { (front bytes : List ℕ) → used ≡ length front → Leaves (In area (Doubted front bytes)) (D.meaning disk.old)
        → LeavesSince (In area (Doubted front bytes)) (D.meaning disk.old) (D.meaning disk.new) }
    ensures end_closed { D.told → (front : List ℕ) → used ≡ length front → Leaves (In area (TornEnd front)) (D.meaning disk.old)
        → OnOk result (Leaves (In area (Closed front)) (D.meaning disk.new)) }
    ensures end_any_moment { (front : List ℕ) → used ≡ length front → Leaves (In area (TornEnd front)) (D.meaning disk.old)
        → LeavesSince (In area (TornEnd front)) (D.meaning disk.old) (D.meaning disk.new) }
    ensures reads { D.told → OnOk result ((D.meaning disk.new).reads
        ≡ with_area area (overwritten (area_of area (D.meaning disk.old).reads) used (0 ∷ [])) (D.meaning disk.old).reads) }
    ensures safe { OnOk result (IsSafe area (D.meaning disk.new)) }
    ensures time { Passes (D.meaning disk.old) (D.meaning disk.new) }
    ensures cost { (D.meaning disk.new).written ≤ (D.meaning disk.old).written + 1 }
    ensures cause { HasCause (D.faults disk.old) (D.faults disk.new) result }
{
    write_synced(disk, area, used, &[SHUT])
}
