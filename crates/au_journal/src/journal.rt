//! A journal: frames behind gates, in the selected area of a disk.
ghost use Rattle.std.specs.Prelude.{◌≡◌, ◌≤◌, ◌^◌, true};
ghost use Rattle.au_io.specs.Areas.{area_of};
ghost use Rattle.au_journal.specs.Held.{IsWalkedOrHeld};
ghost use Rattle.au_journal.specs.Window.{Shows};

use crate::Seat;
use crate::window::Window;
use au_io::Disk;

/// A journal in the selected area of a disk. Contracts see its disk and its seat. It is walked, or was
/// walked to its end: then it stands for some bodies, and where one is in doubt perhaps for others.
#[derive(Drop)]
pub struct Journal<D: Disk> {
    pub(crate) disk: D,
    pub(crate) seat: Seat,
    /// What the walk read last. Nothing, once something was written.
    pub(crate) window: Window,
    ghost sized: { seat.size ≤ 2 ^ 62 },
    ghost short: { seat.used ≤ 2 ^ 62 },
    ghost near: { seat.reach ≤ 2 ^ 62 },
    ghost shown: { D.told → Shows window (area_of seat.area (D.meaning disk).reads) },
    ghost behind: { seat.ended ≡ true → seat.reach ≡ seat.used },
    ghost stands: { ∥ (D.told → IsWalkedOrHeld (D.meaning disk) seat) ∥₁ },
}
