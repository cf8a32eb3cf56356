//! Giving bytes to a sink.
ghost use Rattle.std.specs.Prelude.{◌≡◌, OnOk, OnErr};
ghost use Rattle.std.specs.Io.KnownBytes.{Appends};
ghost use Rattle.au_io.specs.Faults.{HasRisen};
ghost use Rattle.au_main.specs.Given.{AppendsFront, GivesText};
ghost use Rattle.au_main.specs.Ran.{IsWriteCause};

use crate::status::Status;
use au_io::{Gave, Sink};

/// The sink failed.
#[derive(Clone, Copy)]
pub(crate) struct WriteFault;

/// Gives all the bytes. At a fault a front of them was given.
pub(crate) fn give_all<W: Sink>(sink: &mut W, bytes: &[u8]) -> Result<(), WriteFault>
    ensures ok { OnOk result (Appends (W.given sink.old) (W.given sink.new) bytes.now) }
    ensures err { OnErr result (AppendsFront (W.given sink.old) (W.given sink.new) bytes.now) }
    ensures well { OnOk result (W.faults sink.new ≡ W.faults sink.old) }
    ensures cause { OnErr result (HasRisen (W.faults sink.old) (W.faults sink.new)) }
{
    let mut rest = bytes;
    while !rest.is_empty() {
        match sink.give(rest) {
            Gave::Bytes(count) => rest = rest.split_at(count).1,
            Gave::Failed => return Err(WriteFault),
        }
    }
    Ok(())
}

/// Gives the text of a command, which is done then.
pub(crate) fn give<W: Sink>(sink: &mut W, text: &[u8]) -> Status
    ensures gives { GivesText text.now result (W.given sink.old) (W.given sink.new) }
    ensures write { IsWriteCause result (W.faults sink.old) (W.faults sink.new) }
{
    match give_all(sink, text) {
        Ok(()) => Status::Done,
        Err(_) => Status::WriteFault,
    }
}
