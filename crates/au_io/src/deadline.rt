//! The deadline of a connection's requests and responses.
ghost use Rattle.std.specs.Prelude.{◌≡◌, ◌≢◌, ◌-◌};
ghost use Rattle.std.specs.Duration.{as_nanos};
ghost use Rattle.std.specs.Time.{instant_nanos};

use std::time::{Duration, Instant};

/// The seconds that a request may take to come whole, and a response to be taken. A person thinks
/// between two statements.
const DEADLINE_SECONDS: u64 = 600;

/// What a connection is doing.
#[derive(Clone, Copy, PartialEq, Eq)]
pub(crate) enum Phase {
    /// A request is taken of it.
    Taking,
    /// A response is given to it.
    Giving,
    /// The last response was taken.
    Idle,
}

/// Since when a request is taken, or a response given.
#[derive(Drop)]
pub(crate) struct Deadline {
    phase: Phase,
    since: Instant,
}

impl Deadline {
    /// The deadline of a request that is due from now on.
    pub(crate) fn new(now: Instant) -> Deadline
        ensures phase { result.phase ≡ Phase.Taking }
        ensures since { result.since ≡ now }
    {
        Deadline {
            phase: Phase::Taking,
            since: now,
        }
    }

    /// The time that a call of this phase may still take. It is counted from the first call of the phase.
    pub(crate) fn left(&mut self, phase: Phase, now: Instant) -> Duration
        ensures phase { self.new.phase ≡ phase }
        ensures goes_on { self.old.phase ≡ phase → self.new.since ≡ self.old.since }
        ensures anew { self.old.phase ≢ phase → self.new.since ≡ now }
        ensures left { as_nanos result ≡ 600_000_000_000 - (instant_nanos now - instant_nanos self.new.since) }
    {
        if self.phase != phase {
            self.phase = phase;
            self.since = now;
        }
        Duration::from_secs(DEADLINE_SECONDS).saturating_sub(now.duration_since(self.since))
    }

    /// Ends the phase: the next call begins one, whatever the server did in between.
    pub(crate) fn rest(&mut self)
        ensures { self.new.phase ≡ Phase.Idle }
    {
        self.phase = Phase::Idle;
    }
}
