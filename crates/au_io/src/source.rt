//! Where bytes are taken from.
ghost use Rattle.std.specs.Prelude.{◌≡◌, ◌<◌, Option, length};
ghost use Rattle.au_io.specs.Faults.{Plan, Counts, KeepsPlan};
ghost use Rattle.au_io.specs.Stream.{Takes, TakesMore, StaysTold, IsTakeCause};

use crate::Stream;

/// What a source answers to one call.
#[derive(Clone, Copy, Debug, PartialEq, Eq)]
pub enum Took {
    /// So many bytes, at least one, stand at the front of the room.
    Bytes(usize),
    /// Nothing is left.
    End,
    /// The source has failed, and nothing was taken. A later call may succeed.
    Failed,
}

/// Where bytes are taken from, in order and once each.
pub trait Source: Stream {
    /// The calls of `take` that are to fail, where the source tells them.
    ghost plan: { Self → Option Plan };

    /// Takes at most as many bytes as the room has. What stands in the room behind the bytes that
    /// were taken isn't known. What was given stays.
    fn take(&mut self, room: &mut [u8]) -> Took
        requires { 0 < length room.old }
        ensures bytes { Takes (Self.left self.old) (Self.left self.new) room.new result }
        ensures told { StaysTold (Self.left self.old) (Self.left self.new) }
        ensures taken { TakesMore (Self.taken self.old) (Self.taken self.new) room.new result }
        ensures given { Self.given self.new ≡ Self.given self.old }
        ensures cause { IsTakeCause (Self.faults self.old) (Self.faults self.new) result }
        ensures counted { Counts (Self.faults self.old) (Self.faults self.new) (result ≡ Took.Failed) }
        ensures planned { KeepsPlan (plan self.old) (plan self.new) (result ≡ Took.Failed) ⊥ };
}
