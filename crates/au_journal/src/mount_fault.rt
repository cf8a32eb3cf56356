//! Why an area couldn't be walked.
ghost use Rattle.std.specs.Prelude.{◌≡◌};

use au_io::{Area, Failed};

/// Why an area couldn't be mounted or walked. What is read, and what a crash leaves, is as it was.
#[derive(Clone, Copy, Debug, PartialEq, Eq)]
pub enum MountFault {
    /// The disk failed.
    Disk,
    /// The selected area isn't formatted.
    Unformatted,
    /// The bytes of the area are wrong at that place, and right before it.
    Damaged { area: Area, at: u64 },
}

impl From<Failed> for MountFault {
    ghost use Rattle.au_journal.specs.declared.mount_fault.MountFault.TheVariants.{Disk};

    ghost from_gives = { λ _ why. why ≡ Disk };

    fn from(_failed: Failed) -> MountFault {
        MountFault::Disk
    }
}
