//! One line of a script.
ghost use Rattle.std.specs.Prelude.{◌≡◌, ◌≢◌, ◌<◌, length, OnOk, IfOk, IsErrOf};
ghost use Rattle.au_io.specs.Faults.{HasRisen};
ghost use Rattle.au_script.specs.Lines.{SaysNothing};
ghost use Rattle.au_main.specs.Answers.{line_of};
ghost use Rattle.au_main.specs.Means.{means_of};
ghost use Rattle.au_main.specs.descent.Answering.{Answered, AnsweredInPart, DidNothing, FoundNoMemory, Told, ToldInPart};

use crate::give::give_all;
use crate::stop::Stop;
use au_base::{Ask, ClientNo, Memory, Said};
use au_io::{Clock, Disk, Sink};
use au_script::{Labels, ScriptLine, line, said_text};
use au_store::Store;
use std::alloc::Global;

/// Does what a line says, and gives the text of what was said. The labels are those of the lines
/// before it, and then its own too.
pub(crate) fn answer_line<D: Disk, C: Clock, W: Sink>(
    alloc: Global,
    store: &mut Store<D, C>,
    labels: &mut Labels,
    sink: &mut W,
    bytes: &[u8],
) -> Result<(), Stop>
    requires room { length labels.old < u32.MAX }
    ensures ok { OnOk result (Answered (means_of D.told D.meaning D.faults C.ticking) labels.old labels.new store.old store.new bytes.now (W.given sink.old) (W.given sink.new)) }
    ensures write_fault { IsErrOf result Stop.WriteFault → AnsweredInPart (means_of D.told D.meaning D.faults C.ticking) labels.old store.old store.new bytes.now (W.given sink.old) (W.given sink.new) }
    ensures memory { IsErrOf result Stop.Memory → FoundNoMemory (means_of D.told D.meaning D.faults C.ticking) labels.old store.old store.new bytes.now (W.given sink.old) (W.given sink.new) }
    ensures bad { IsErrOf result Stop.BadLine → SaysNothing bytes.now }
    ensures bad_stays { IsErrOf result Stop.BadLine → DidNothing store.old store.new (W.given sink.old) (W.given sink.new) }
    ensures cause { IsErrOf result Stop.WriteFault → HasRisen (W.faults sink.old) (W.faults sink.new) }
    ensures well { (IsErrOf result Stop.WriteFault → ⊥) → W.faults sink.new ≡ W.faults sink.old }
{
    match line(alloc, bytes)? {
        None => Err(Stop::BadLine),
        Some(ScriptLine::Skip) => Ok(()),
        Some(ScriptLine::Ask { label, ask }) => {
            let client = labels.client_of(alloc, &label)?;
            answer(alloc, store, sink, client, &ask)
        }
    }
}

// One step, and the text of what was said, in one piece.
fn answer<D: Disk, C: Clock, W: Sink>(
    alloc: Global,
    store: &mut Store<D, C>,
    sink: &mut W,
    client: ClientNo,
    ask: &Ask,
) -> Result<(), Stop>
    requires client { client.0 ≢ 0 }
    ensures ok { OnOk result (Told (means_of D.told D.meaning D.faults C.ticking) store.old store.new client.0 ask.now (W.given sink.old) (W.given sink.new)) }
    ensures write_fault { IsErrOf result Stop.WriteFault → ToldInPart (means_of D.told D.meaning D.faults C.ticking) store.old store.new client.0 ask.now (W.given sink.old) (W.given sink.new) }
    ensures memory { IsErrOf result Stop.Memory → ToldInPart (means_of D.told D.meaning D.faults C.ticking) store.old store.new client.0 ask.now (W.given sink.old) (W.given sink.new) }
    ensures bad { IsErrOf result Stop.BadLine → ⊥ }
    ensures cause { IsErrOf result Stop.WriteFault → HasRisen (W.faults sink.old) (W.faults sink.new) }
    ensures well { (IsErrOf result Stop.WriteFault → ⊥) → W.faults sink.new ≡ W.faults sink.old }
{
    let said = store.answer(alloc, client, ask);
    let text = text_line(alloc, &said)?;
    give_all(sink, &text)?;
    Ok(())
}

// The text of what was said, with the LF that ends it.
fn text_line(alloc: Global, said: &Said) -> Result<Vec<u8>, Memory>
    ensures { IfOk result (λ text. text.items ≡ line_of said.now) }
{
    let mut text = said_text(alloc, said)?.into_string()?.into_bytes();
    text.push(b'\n')?;
    Ok(text)
}
