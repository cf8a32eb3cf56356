//! Where connections come from.
ghost use Rattle.std.specs.Prelude.{◌≡◌, ◌≤◌, ℕ, Option, IfSome, length};
ghost use Rattle.au_io.specs.Faults.{Plan, Counts, KeepsPlan};
ghost use Rattle.au_io.specs.Visits.{Visits, HasOut, Finishes, Hands, HandsFresh, IsNextCause, IsOpenCause};

use crate::Link;

/// What a lobby answers where it is opened.
#[derive(Clone, Copy, Debug, PartialEq, Eq)]
pub enum Opened {
    /// Connections may come.
    Ready,
    /// The lobby has failed. A later call may succeed.
    Failed,
}

/// What a lobby answers where it is asked for a connection.
#[derive(Debug, Drop)]
pub enum Next<L> {
    /// The next connection.
    Link(L),
    /// No connection is left.
    Closed,
    /// The lobby has failed. A later call may succeed.
    Failed,
}

/// Where connections come from, one after the other.
pub trait Lobby: Send {
    /// A connection of this kind.
    type Link: Link;

    /// How many connections it handed out, what is known of each that is left, in the order in which
    /// they come, and of each that was finished, where the lobby tells them.
    ghost visits: { Self → Option Visits };

    /// How often it has failed.
    ghost faults: { Self → ℕ };

    /// The calls of `open` and `next` that are to fail, where the lobby tells them. Both kinds are
    /// numbered together.
    ghost plan: { Self → Option Plan };

    /// Opens it at a port.
    fn open(&mut self, port: u16) -> Opened
        ensures visits { visits self.new ≡ visits self.old }
        ensures cause { IsOpenCause (faults self.old) (faults self.new) result }
        ensures counted { Counts (faults self.old) (faults self.new) (result ≡ Opened.Failed) }
        ensures planned { KeepsPlan (plan self.old) (plan self.new) (result ≡ Opened.Failed) ⊥ };

    /// The next connection, the first of those that are left. Nothing was taken of it and nothing given
    /// to it, and it has not failed.
    fn next(&mut self) -> Next<Self::Link>
        ensures visits { Hands (λ link. record { left = Self.Link.left link; taken = Self.Link.taken link; given = Self.Link.given link; faults = Self.Link.faults link })
            (visits self.old) (visits self.new) result }
        ensures fresh { HandsFresh Self.Link.left Self.Link.taken Self.Link.given Self.Link.faults result }
        ensures cause { IsNextCause (faults self.old) (faults self.new) result }
        ensures counted { Counts (faults self.old) (faults self.new) (result ≡ Next.Failed) }
        ensures planned { KeepsPlan (plan self.old) (plan self.new) (result ≡ Next.Failed) ⊥ };

    /// Takes a connection back for good, as the last of those finished. It takes no memory.
    fn finish(&mut self, link: Self::Link)
        requires { HasOut (visits self.old) }
        ensures visits { Finishes (visits self.old) (visits self.new)
            (record { left = Self.Link.left link; taken = Self.Link.taken link; given = Self.Link.given link; faults = Self.Link.faults link }) }
        ensures faults { faults self.new ≡ faults self.old }
        ensures plan { plan self.new ≡ plan self.old };

    /// No more are finished than were handed out.
    ghost within: { (lobby : Self) → IfSome (visits lobby) (λ v. length v.finished ≤ v.handed) };
}
