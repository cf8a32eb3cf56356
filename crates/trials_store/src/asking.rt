//! What one client asks of a store.
ghost use Rattle.std.specs.Prelude.{◌≡◌, ◌<◌};

use au_base::{Ask, Cell, ClientNo, Reply, Said, Steps, Text};
use au_io::{MemClock, MemDisk};
use au_store::Store;
use std::alloc::Global;
use std::marker::Brand;
use std::sync::ledger::{Blank, Ledger};
use trials_lines::Fault;

const CLIENT: ClientNo = ClientNo(1);

/// Adds that the store is opened, and what comes of these asks, in their order.
pub fn push_asks(
    alloc: Global,
    store: &mut Store<MemDisk, MemClock>,
    asks: &str,
    said: &mut String,
) -> Result<(), Fault> {
    said.push_str("opened")?;
    for ask in asks.split_whitespace() {
        said.push_str(", ")?;
        push_ask(alloc, store, ask, said)?;
    }
    Ok(())
}

fn push_ask(
    alloc: Global,
    store: &mut Store<MemDisk, MemClock>,
    ask: &str,
    said: &mut String,
) -> Result<(), Fault> {
    match ask {
        "stands" => push_test(store.stands(CLIENT), said),
        "abandon" => {
            store.abandon(CLIENT);
            said.push_str("ended")?;
            Ok(())
        }
        "reading" => {
            write!(said, "{}", store.reading())?;
            Ok(())
        }
        _ => push_statement(alloc, store, ask, said),
    }
}

fn push_test(test: bool, said: &mut String) -> Result<(), Fault> {
    match test {
        true => said.push_str("yes")?,
        false => said.push_str("no")?,
    }
    Ok(())
}

fn push_statement(
    alloc: Global,
    store: &mut Store<MemDisk, MemClock>,
    ask: &str,
    said: &mut String,
) -> Result<(), Fault> {
    let ask = ask_of(alloc, ask)?;
    let answer = step::<Brand>(alloc, store, &ask, Blank::new(1));
    push_answer(&answer, said)
}

fn ask_of(alloc: Global, ask: &str) -> Result<Ask, Fault> {
    match ask {
        "local" => Ok(Ask::Local),
        "audit" => statement(alloc, "AUDIT POLICY P_ALL"),
        "one" => statement(alloc, "SELECT 1 FROM DUAL"),
        "count" => statement(alloc, "SELECT COUNT(*) FROM UNIFIED_AUDIT_TRAIL"),
        _ => Err(Fault::NoCase),
    }
}

fn statement(alloc: Global, text: &str) -> Result<Ask, Fault> {
    Ok(Ask::Sql(Text::from_str(alloc, text)?))
}

// The one call of a step.
fn step<L: Ledger>(
    alloc: Global,
    store: &mut Store<MemDisk, MemClock>,
    ask: &Ask,
    blank: Blank,
) -> Said
    requires name { blank.name ≡ L.name }
    requires parts { blank.parts ≡ L.parts }
    requires some { 0 < L.parts }
{
    let mut steps = Steps::<L>::new(blank);
    store.step(alloc, CLIENT, ask, &mut steps)
}

fn push_answer(answer: &Said, said: &mut String) -> Result<(), Fault> {
    match answer {
        Said::Replied(reply) => push_reply(reply, said)?,
        Said::Disk => said.push_str("disk")?,
        Said::Full { needed, limit } => write!(said, "full {needed} of {limit}")?,
        Said::Memory => return Err(Fault::Memory),
    }
    Ok(())
}

fn push_reply(reply: &Reply, said: &mut String) -> Result<(), Fault> {
    let code = reply.code.0;
    match first_number(reply) {
        Some(number) => write!(said, "number {number}")?,
        None => write!(said, "code {code}")?,
    }
    Ok(())
}

// The first cell of the first row, where it is a number.
fn first_number(reply: &Reply) -> Option<i64> {
    match reply.rows.as_slice().first()?.as_slice().first()? {
        Cell::Num(number) => Some(*number),
        _ => None,
    }
}
