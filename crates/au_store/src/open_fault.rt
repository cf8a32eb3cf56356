//! Why a store couldn't be opened.
ghost use Rattle.std.specs.Prelude.{◌≡◌};

use crate::LookFault;
use au_io::Area;

/// Why a store couldn't be opened.
#[derive(Clone, Copy)]
pub enum OpenFault {
    /// The disk failed.
    Disk,
    /// The selected area isn't formatted.
    Unformatted,
    /// The bytes of the area are wrong at that place, and right before it.
    Damaged { area: Area, at: u64 },
    /// The number of the instance is the last one.
    Worn,
    /// There was no memory.
    Memory,
}

impl From<LookFault> for OpenFault {
    ghost use Rattle.au_store.specs.Looking.{opening_fault};

    ghost from_gives = { λ why fault. fault ≡ opening_fault why };

    fn from(why: LookFault) -> OpenFault {
        match why {
            LookFault::Disk => OpenFault::Disk,
            LookFault::Unformatted => OpenFault::Unformatted,
            LookFault::Damaged { area, at } => OpenFault::Damaged { area, at },
            LookFault::Memory => OpenFault::Memory,
        }
    }
}
