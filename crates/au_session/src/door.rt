//! The door.
ghost use Rattle.std.specs.Prelude.{◌≡◌, ◌<◌, true};
ghost use Rattle.au_session.specs.Backed.{Backed};

use au_io::Lobby;

mod calls;

/// Where connections are drawn, each with the number of a client of its own, and come back.
pub struct Door<L: Lobby> {
    pub lobby: L,
    /// How many more may be drawn, where there is a bound.
    pub left: Option<u32>,
    /// How many were drawn.
    pub drawn: u32,
    /// How many came back and were finished.
    pub back: u32,
    /// One came back for want of memory.
    pub short: bool,
    /// The lobby has failed.
    pub failed: bool,
    ghost kept: { ∥ Backed (L.visits lobby) drawn back ∥₁ },
    ghost fault: { failed ≡ true → 0 < L.faults lobby },
}
