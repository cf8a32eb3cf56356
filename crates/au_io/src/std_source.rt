//! A reader of the system as a source.
ghost use Rattle.std.specs.Prelude.{◌≡◌, None};

use crate::tries::read_some;
use crate::{Source, Stream, Took};
use std::io::Read;

/// A reader of the system, as standard input. It tells nothing of its bytes: that they are what the
/// system was given is trusted. A call is one read, made again where a signal interrupts it.
#[derive(Drop)]
pub struct StdSource<R> {
    reader: R,
    faults: u64,
}

impl<R> StdSource<R> {
    ghost use Rattle.au_io.specs.Real.{std_source_faults};

    pub fn new(reader: R) -> Self
        ensures { std_source_faults result ≡ 0 }
    {
        StdSource { reader, faults: 0 }
    }
}

impl<R> Stream for StdSource<R> {
    ghost left = { λ _. None };

    ghost taken = { λ _. None };

    ghost given = { λ _. None };

    ghost faults = { λ source. source.faults };
}

impl<R: Read> Source for StdSource<R> {
    ghost plan = { λ _. None };

    fn take(&mut self, room: &mut [u8]) -> Took {
        match read_some(&mut self.reader, room) {
            Some(0) => Took::End,
            Some(count) => Took::Bytes(count),
            None => {
                self.faults = self.faults.saturating_add(1);
                Took::Failed
            }
        }
    }
}
