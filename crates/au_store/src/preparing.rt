//! Working out the step of an ask.
ghost use Rattle.std.specs.Prelude.{◌≡◌, ◌≢◌, IfOk};
ghost use Rattle.au_engine.specs.Counting.{CountsFor};
ghost use Rattle.au_engine.specs.Prepared.{Fits, after, logged_of};
ghost use Rattle.au_step.specs.Replaying.{EndsWell};
ghost use Rattle.au_step.specs.State.{IsStampOf};
ghost use Rattle.au_step.specs.Step.{StepAt};
ghost use Rattle.au_store.specs.descent.Making.{CarriesTo, IsImageFor, IsReady, WritesTo, written_in};

use crate::ready::Ready;
use au_base::{Ask, ClientNo, List, Memory, Stamp, Steps};
use au_engine::{Engine, Prepared, asks_are_text, reading_of};
use au_step::{frames_lead_on, images_come_back, one_result};
use std::alloc::Global;
use std::sync::ledger::Ledger;

/// Reads the text that a client asks, plans it where it is on rows, and works out the step at this
/// stamp; of one that purges, also the image of what is kept after it. The state is left as it is.
pub(crate) fn prepare<L: Ledger>(
    engine: &mut Engine,
    alloc: Global,
    client: ClientNo,
    ask: &Ask,
    stamp: Stamp,
    steps: &mut Steps<L>,
) -> Result<Ready, Memory>
    requires seated { EndsWell engine.old.state.kept }
    requires stamp { IsStampOf engine.old.state stamp.0 }
    requires client { client.0 ≢ 0 }
    ensures step { IfOk result (λ ready. StepAt engine.old.state client ask.now stamp.0 ready.prepared.reply (after ready.prepared engine.old.state)) }
    ensures ready { IfOk result (IsReady engine.old.state client ask.now stamp.0) }
    ensures carries { IfOk result (λ ready. WritesTo engine.old.state.kept (written_in ready) (after ready.prepared engine.old.state).kept) }
    ensures ends { IfOk result (λ ready. EndsWell (after ready.prepared engine.old.state).kept) }
    ensures keeps { engine.new.state ≡ engine.old.state }
    ensures fits { IfOk result (λ ready. Fits ready.prepared engine.new) }
    ensures steps { CountsFor engine.old.state client ask.now stamp.0 steps.old steps.new }
{
    asks_are_text(ask);
    engine.lawful();
    frames_lead_on();
    one_result();
    let read = reading_of(alloc, ask)?;
    let plan = engine.plan(alloc, client, ask, &read, stamp)?;
    let prepared = engine.prepare(alloc, client, ask, &read, plan, stamp, steps)?;
    let image = image_after(engine, alloc, &prepared)?;
    Ok(Ready { prepared, image })
}

// The framed image of what is kept after a step that purges; none of another one.
fn image_after(
    engine: &Engine,
    alloc: Global,
    prepared: &Prepared,
) -> Result<Option<List<u8>>, Memory>
    requires seated { EndsWell engine.now.state.kept }
    requires fits { Fits prepared.now engine.now }
    requires carries { CarriesTo engine.now.state.kept prepared.now.framed (after prepared.now engine.now.state).kept }
    requires ends { EndsWell (after prepared.now engine.now.state).kept }
    ensures { IfOk result (IsImageFor (after prepared.now engine.now.state).kept (logged_of prepared.now).purge) }
{
    if !prepared.purges() {
        return Ok(None);
    }
    images_come_back();
    let image = engine.image_after(alloc, prepared)?;
    Ok(Some(List::from_vec(image)))
}
