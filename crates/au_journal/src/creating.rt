//! Making the first area of a disk.
ghost use Rattle.std.specs.Prelude.{◌≡◌, List, ℕ};
ghost use Rattle.au_io.specs.declared.disk.Area.TheVariants.{A};
ghost use Rattle.au_io.specs.Disk.{Passes, Stays};
ghost use Rattle.au_io.specs.Moments.{Leaves, LeavesSince};
ghost use Rattle.au_journal.specs.Creation.{IsSelectedFormatted, OthersAreBlank, IsNew, IsOnly, laid_down, FormatLeaves, FormatPasses, FormatCause};
ghost use Rattle.au_journal.specs.Frames.{IsLimit};
ghost use Rattle.au_journal.specs.Images.{In};
ghost use Rattle.au_journal.specs.Seats.{IsFramed};
ghost use Rattle.au_journal.specs.Walk.{IsStill, IsUnformatted};

use crate::creation::lay_down;
use crate::head::is_formatted;
use crate::{Formatting, Journal};
use au_io::Disk;

impl<D: Disk> Journal<D> {
    /// Makes area A the selected one, with this limit and one frame, given as framed bytes. It syncs
    /// the three areas first, and does nothing else where the selected area is formatted. Where it
    /// failed it can be made again.
    pub fn format(disk: &mut D, framed: &[u8], limit: u32) -> Formatting
        requires in_range { IsLimit limit }
        requires framed { (body : List ℕ) × IsFramed framed.now body }
        ensures formatted { D.told → result ≡ Formatting.Formatted → IsSelectedFormatted (D.meaning disk.old).reads }
        ensures unformatted { D.told → result ≡ Formatting.Done → IsUnformatted (D.meaning disk.old).reads }
        ensures untouched { result ≡ Formatting.Formatted → Stays (D.meaning disk.old) (D.meaning disk.new) }
        ensures synced { result ≡ Formatting.Formatted → IsStill (D.meaning disk.new) }
        ensures done { D.told → (body : List ℕ) → IsFramed framed.now body → result ≡ Formatting.Done → Leaves (In A (IsNew limit body)) (D.meaning disk.new) }
        ensures laid_down { D.told → result ≡ Formatting.Done → IsOnly (laid_down limit framed.now (D.meaning disk.old).reads) (D.meaning disk.new) }
        ensures any_moment { D.told → (body : List ℕ) → IsFramed framed.now body → Leaves OthersAreBlank (D.meaning disk.old)
            → LeavesSince (FormatLeaves (D.meaning disk.old) limit body) (D.meaning disk.old) (D.meaning disk.new) }
        ensures on_the_way { D.told → LeavesSince (FormatPasses (D.meaning disk.old) limit framed.now) (D.meaning disk.old) (D.meaning disk.new) }
        ensures again { D.told → Leaves OthersAreBlank (D.meaning disk.old) → LeavesSince OthersAreBlank (D.meaning disk.old) (D.meaning disk.new) }
        ensures time { Passes (D.meaning disk.old) (D.meaning disk.new) }
        ensures cause { FormatCause result (D.faults disk.old) (D.faults disk.new) }
    {
        match is_formatted(disk) {
            Ok(true) => Formatting::Formatted,
            Ok(false) => match lay_down(disk, limit, framed) {
                Ok(()) => Formatting::Done,
                Err(_) => Formatting::Disk,
            },
            Err(_) => Formatting::Disk,
        }
    }
}
