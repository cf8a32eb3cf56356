//! Where bytes are given to.
ghost use Rattle.std.specs.Prelude.{◌≡◌, ◌<◌, ℕ, Option, length};
ghost use Rattle.au_io.specs.Faults.{HasRisen, Plan, Counts, CountsShort, KeepsShort, KeepsPlan};
ghost use Rattle.au_io.specs.Stream.{Gives, IsGiveCause};

use crate::Stream;

/// What a sink answers to one call.
#[derive(Clone, Copy, Debug, PartialEq, Eq)]
pub enum Gave {
    /// So many bytes, at least one, were taken from the front of those offered.
    Bytes(usize),
    /// The sink has failed, and none was taken. A later call may succeed.
    Failed,
}

/// Where bytes are given to, in order.
pub trait Sink: Stream {
    /// How many of the faults were want of memory.
    ghost short: { Self → ℕ };

    /// The calls of `give` that are to fail, where the sink tells them.
    ghost plan: { Self → Option Plan };

    /// Gives the front of the bytes, or all of them. The caller offers the rest again. What is left
    /// to be taken and what was taken stay.
    fn give(&mut self, bytes: &[u8]) -> Gave
        requires { 0 < length bytes.now }
        ensures bytes { Gives (Self.given self.old) (Self.given self.new) bytes.now result }
        ensures left { Self.left self.new ≡ Self.left self.old }
        ensures taken { Self.taken self.new ≡ Self.taken self.old }
        ensures cause { IsGiveCause (Self.faults self.old) (Self.faults self.new) result }
        ensures counted { Counts (Self.faults self.old) (Self.faults self.new) (result ≡ Gave.Failed) }
        ensures short { CountsShort (short self.old) (short self.new) (result ≡ Gave.Failed) }
        ensures listed { KeepsShort (plan self.old) (short self.old) (short self.new) }
        ensures planned { KeepsPlan (plan self.old) (plan self.new) (result ≡ Gave.Failed) (HasRisen (short self.old) (short self.new)) };
}
