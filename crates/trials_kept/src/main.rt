//! Tries what is kept: each line of standard input replays a frame or asks, and is written again with
//! what came.
//!
//! - `image LAST: CHANGES / RECORDS`: from here on nothing is kept, and this image is replayed;
//!   `event STAMP: CHANGES / RECORDS`, `purge STAMP BEFORE: CHANGES / RECORDS`: this frame is replayed, a
//!   purge with the moment before which records go, or `all`. It says whether the frame goes on: `yes`
//!   where it does and the image of what is kept then makes the same of nothing, `no` where it doesn't
//!   and the image is as it was; `no frame` where no frame has such a body
//! - `keeps LAST: CHANGES / RECORDS`: whether this is the image of what is kept, byte by byte
//! - `bytes`: the framed image of what is kept, as hexadecimal digits
//!
//! `CHANGES` and `RECORDS` are lists with `;` between their parts; the words of a change or a record
//! spell its bytes, as `words::bytes_of` says.
#![tactic(auto)]

ghost use Rattle.std.specs.Prelude.{◌≡◌, []};
ghost use Rattle.au_base.specs.declared.numbers.ClientNo.{ClientNo as Client};
ghost use Rattle.au_txn.specs.Logs.{changes_of};

mod copying;
mod frames;
mod replaying;
mod words;

use au_kept::Keeping;
use frames::{body_of, framed};
use std::alloc::Global;
use std::io;
use trials_lines::{Fault, said, yes_or_no};

// What comes of a line.
fn answer(alloc: Global, keeping: &mut Keeping, line: &str) -> Result<String, Fault>
    requires alone { (client : Client) → changes_of client keeping.old.logs ≡ [] }
    ensures alone { (client : Client) → changes_of client keeping.new.logs ≡ [] }
{
    let (call, rest) = line.split_once(' ').unwrap_or((line, ""));
    match call {
        "image" => said(alloc, replaying::image(alloc, keeping, rest)?),
        "event" => said(alloc, replaying::next(alloc, keeping, 2, rest)?),
        "purge" => said(alloc, replaying::next(alloc, keeping, 3, rest)?),
        "keeps" => yes_or_no(alloc, keeps(alloc, keeping, rest)?),
        "bytes" => Ok(hex::encode(alloc, &keeping.image(alloc)?)?),
        _ => Err(Fault::NoCase),
    }
}

fn keeps(alloc: Global, keeping: &Keeping, line: &str) -> Result<bool, Fault> {
    let image = keeping.image(alloc)?;
    let body = body_of(alloc, 1, line)?;
    Ok(framed(alloc, &body)?.as_slice() == image.as_slice())
}

fn tried(rt: HostRuntime, keeping: &mut Keeping) -> io::Result<()>
    requires alone { (client : Client) → changes_of client keeping.old.logs ≡ [] }
{
    for line in rt.lines(rt.alloc()) {
        let line = line?;
        if line.is_empty() || line.starts_with('#') {
            println!(rt; "{line}")?;
            continue;
        }
        match answer(rt.alloc(), keeping, line.as_str()) {
            Ok(text) => println!(rt; "{line} = {text}")?,
            Err(Fault::Memory) => println!(rt; "{line}: out of memory")?,
            Err(Fault::NoCase) => println!(rt; "{line}: no such case")?,
        }
    }
    Ok(())
}

fn main(rt: HostRuntime) -> io::Result<()> {
    match Keeping::blank(rt.alloc()) {
        Ok(mut keeping) => tried(rt, &mut keeping),
        Err(_) => println!(rt; "out of memory"),
    }
}
