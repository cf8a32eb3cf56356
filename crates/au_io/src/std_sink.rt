//! A writer of the system as a sink.
ghost use Rattle.std.specs.Prelude.{◌≡◌, None};

use crate::tries::write_some;
use crate::{Gave, Sink, Stream};
use std::io::Write;

/// A writer of the system, as standard output. It tells nothing of its bytes: that they arrive is
/// trusted. A call is one write, made again where a signal interrupts it; one that takes no byte is
/// a fault. Nothing is flushed, so the writer is to be one that keeps nothing back.
#[derive(Drop)]
pub struct StdSink<W> {
    writer: W,
    faults: u64,
}

impl<W> StdSink<W> {
    ghost use Rattle.au_io.specs.Real.{std_sink_faults};

    pub fn new(writer: W) -> Self
        ensures { std_sink_faults result ≡ 0 }
    {
        StdSink { writer, faults: 0 }
    }
}

impl<W> Stream for StdSink<W> {
    ghost left = { λ _. None };

    ghost taken = { λ _. None };

    ghost given = { λ _. None };

    ghost faults = { λ sink. sink.faults };
}

impl<W: Write> Sink for StdSink<W> {
    ghost short = { λ _. 0 };

    ghost plan = { λ _. None };

    fn give(&mut self, bytes: &[u8]) -> Gave {
        match write_some(&mut self.writer, bytes) {
            Some(count) => Gave::Bytes(count),
            None => {
                self.faults = self.faults.saturating_add(1);
                Gave::Failed
            }
        }
    }
}
