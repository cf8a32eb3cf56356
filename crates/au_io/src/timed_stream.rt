//! A connection of the system whose calls end by a deadline.
ghost use Rattle.std.specs.Prelude.{◌<◌, ◌≤◌, length, IfSome};

use crate::deadline::{Deadline, Phase};
use crate::tries::{read_some, write_some};
use std::net::{Shutdown, TcpStream};
use std::time::{Duration, Instant};

/// A connection of the system whose requests and responses have a deadline. A call that is late fails.
#[derive(Drop)]
pub(crate) struct TimedStream {
    rt: HostRuntime,
    stream: TcpStream,
    deadline: Deadline,
    // the time-out that the system has for reads and for writes
    timeout: Option<Duration>,
}

impl TimedStream {
    /// A connection that was just accepted. `None` where no clock can be read.
    pub(crate) fn new(rt: HostRuntime, stream: TcpStream) -> Option<TimedStream> {
        let deadline = Deadline::new(Instant::now(&rt).ok()?);
        Some(TimedStream {
            rt,
            stream,
            deadline,
            timeout: None,
        })
    }

    /// Reads once. `None` is a failed or a late read.
    ///
    /// It is one call of the system. Two more set the time-outs where the time that is left isn't
    /// what the system has: at the first read, at the first of the next request, and at each further
    /// read of one request.
    pub(crate) fn read(&mut self, room: &mut [u8]) -> Option<usize>
        ensures { IfSome result (λ n. n ≤ length room.new) }
    {
        self.limit(Phase::Taking)?;
        read_some(&mut self.stream, room)
    }

    /// Writes once. `None` is a failed or a late write, or one that took no byte. It costs what a
    /// read does. Where all bytes were taken the next write has the whole time again, so the time of
    /// the server's own work is never counted.
    pub(crate) fn write(&mut self, bytes: &[u8]) -> Option<usize>
        ensures { IfSome result (λ n. (0 < n) × (n ≤ length bytes.now)) }
    {
        self.limit(Phase::Giving)?;
        let taken = write_some(&mut self.stream, bytes)?;
        if taken == bytes.len() {
            self.deadline.rest();
        }
        Some(taken)
    }

    /// Ends what is written.
    pub(crate) fn shut(&mut self) {
        // a peer that has left needs no end
        let _ = self.stream.shutdown(Shutdown::Write);
    }

    // Lets the next call wait for as long as the deadline allows. `None` where no time is left, no
    // clock can be read, or the system refuses.
    fn limit(&mut self, phase: Phase) -> Option<()> {
        let left = self.deadline.left(phase, Instant::now(&self.rt).ok()?);
        if left.is_zero() {
            return None;
        }
        if self.timeout != Some(left) {
            self.stream.set_read_timeout(Some(left)).ok()?;
            self.stream.set_write_timeout(Some(left)).ok()?;
            self.timeout = Some(left);
        }
        Some(())
    }
}
