//! Why a store couldn't be looked at.
ghost use Rattle.std.specs.Prelude.{◌≡◌};

use au_base::Memory;
use au_io::Area;
use au_journal::MountFault;

/// Why a store couldn't be looked at.
#[derive(Clone, Copy)]
pub enum LookFault {
    /// The disk failed.
    Disk,
    /// The selected area isn't formatted.
    Unformatted,
    /// The bytes of the area are wrong at that place, and right before it.
    Damaged { area: Area, at: u64 },
    /// There was no memory.
    Memory,
}

impl From<MountFault> for LookFault {
    ghost use Rattle.au_store.specs.Looking.{look_fault_of};

    ghost from_gives = { λ why fault. fault ≡ look_fault_of why };

    fn from(why: MountFault) -> LookFault {
        match why {
            MountFault::Disk => LookFault::Disk,
            MountFault::Unformatted => LookFault::Unformatted,
            MountFault::Damaged { area, at } => LookFault::Damaged { area, at },
        }
    }
}

impl From<Memory> for LookFault {
    ghost use Rattle.au_store.specs.declared.look_fault.LookFault.TheVariants as fault;

    ghost from_gives = { λ _ why. why ≡ fault.Memory };

    fn from(_memory: Memory) -> LookFault {
        LookFault::Memory
    }
}
