//! Why a line ends a run.

use crate::give::WriteFault;
use au_base::Memory;

/// Why a line ends a run.
#[derive(Clone, Copy)]
pub(crate) enum Stop {
    /// It is no script line.
    BadLine,
    /// The sink failed.
    WriteFault,
    /// There was no memory for the line or for its text.
    Memory,
}

impl From<Memory> for Stop {
    ghost use Rattle.std.specs.Prelude.{◌≡◌};
    ghost use Rattle.au_main.specs.declared.stop.Stop.TheVariants as stop;

    ghost from_gives = { λ _ e. e ≡ stop.Memory };

    fn from(_: Memory) -> Self {
        Stop::Memory
    }
}

impl From<WriteFault> for Stop {
    ghost use Rattle.std.specs.Prelude.{◌≡◌};
    ghost use Rattle.au_main.specs.declared.stop.Stop.TheVariants as stop;

    ghost from_gives = { λ _ e. e ≡ stop.WriteFault };

    fn from(_: WriteFault) -> Self {
        Stop::WriteFault
    }
}
