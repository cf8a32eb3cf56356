//! The part `commands`: lines that set up an outside, and commands that are done on it.

use crate::ends::{end_of, push_end};
use crate::fault::Fault;
use crate::outside::{Handed, Outcome, blank, command, make_store, top_command};
use crate::setting::Setting;
use crate::texts::push_indented;
use crate::words::{bytes_of, first_word, number};
use au_io::{Area, Disk, MemDisk};
use std::alloc::Global;
use std::sync::Wait;
use std::thread::Threads;

// The image of a disk that is as it reads.
const AS_IT_READS: u8 = 1;

/// By which call a command is done.
#[derive(Clone, Copy)]
enum Call {
    /// The one that is handed a lobby.
    Top,
    /// The one that takes none.
    Alone,
}

/// The outside on which the next command is done.
#[derive(Drop)]
pub struct Bench {
    disk: MemDisk,
    setting: Setting,
}

impl Bench {
    /// An empty disk, a source that has nothing, pieces of 4,096 bytes, and no faults.
    pub fn new(alloc: Global) -> Result<Bench, Fault> {
        let setting = Setting::new(alloc)?;
        Ok(Bench {
            disk: MemDisk::new(alloc, &[])?,
            setting,
        })
    }

    /// Adds what comes of the line.
    pub fn answer<R: Threads + Wait + Sync>(
        &mut self,
        rt: &R,
        alloc: Global,
        line: &str,
        said: &mut String,
    ) -> Result<(), Fault> {
        let (step, part) = first_word(line);
        match step {
            "try" => self.try_all(rt, alloc, Call::Top, part, said),
            "alone" => self.try_all(rt, alloc, Call::Alone, part, said),
            "do" => self.do_once(rt, alloc, part, said),
            "read" => self.read(alloc, part, said),
            "end" => push_named_end(said, part),
            _ => self.set_up(alloc, step, part),
        }
    }

    // Sets up what the commands that come are done on.
    fn set_up(&mut self, alloc: Global, step: &str, part: &str) -> Result<(), Fault> {
        match step {
            "blank" => blank(alloc, &mut self.disk),
            "store" => make_store(alloc, &mut self.disk),
            "scribble" => scribble(alloc, &mut self.disk, part),
            "cut" => cut(&mut self.disk, part),
            _ => self.setting.set(alloc, step, part),
        }
    }

    // Adds what comes of the command on copies of the disk, in pieces of each size.
    fn try_all<R: Threads + Wait + Sync>(
        &self,
        rt: &R,
        alloc: Global,
        call: Call,
        words: &str,
        said: &mut String,
    ) -> Result<(), Fault> {
        let Some((piece, others)) = self.setting.pieces.split_first() else {
            return Err(Fault::NoCase);
        };
        let first = self.in_pieces(rt, alloc, call, words, *piece)?;
        said.push_str(&first)?;
        for piece in others {
            let other = self.in_pieces(rt, alloc, call, words, *piece)?;
            push_other(said, *piece, &first, &other)?;
        }
        Ok(())
    }

    fn in_pieces<R: Threads + Wait + Sync>(
        &self,
        rt: &R,
        alloc: Global,
        call: Call,
        words: &str,
        piece: u64,
    ) -> Result<String, Fault> {
        let mut copy = self.disk.image(alloc, AS_IT_READS)?;
        let handed = self.setting.handed(piece);
        done(rt, alloc, call, words, &handed, &mut copy)
    }

    // Adds what comes of the command on the disk itself, in pieces of the first size.
    fn do_once<R: Threads + Wait + Sync>(
        &mut self,
        rt: &R,
        alloc: Global,
        words: &str,
        said: &mut String,
    ) -> Result<(), Fault> {
        let piece = self.setting.pieces.first().copied().unwrap_or(4096);
        let handed = self.setting.handed(piece);
        let text = done(rt, alloc, Call::Top, words, &handed, &mut self.disk)?;
        said.push_str(&text)?;
        Ok(())
    }

    // Adds bytes of area A, as hexadecimal digits.
    fn read(&mut self, alloc: Global, part: &str, said: &mut String) -> Result<(), Fault> {
        let (at, count) = first_word(part);
        let mut bytes = vec![in alloc; 0u8; number(count)? as usize]?;
        let count = self.disk.read(Area::A, number(at)?, &mut bytes)?;
        bytes.truncate(count);
        let digits = hex::encode(alloc, &bytes)?;
        writeln!(said, "  {digits}")?;
        Ok(())
    }
}

// Adds what came in pieces of that size, where it isn't what came in the first ones.
fn push_other(said: &mut String, piece: u64, first: &str, other: &str) -> Result<(), Fault> {
    if other != first {
        write!(said, "  but in pieces of {piece}:\n{other}")?;
    }
    Ok(())
}

// What comes of the command on the disk, by that call.
fn done<R: Threads + Wait + Sync>(
    rt: &R,
    alloc: Global,
    call: Call,
    words: &str,
    handed: &Handed<'_>,
    disk: &mut MemDisk,
) -> Result<String, Fault> {
    let outcome = match call {
        Call::Top => top_command(rt, alloc, words, handed, disk)?,
        Call::Alone => command(alloc, words, handed, disk)?,
    };
    said_outcome(alloc, &outcome)
}

fn push_named_end(said: &mut String, name: &str) -> Result<(), Fault> {
    push_end(said, end_of(name)?)?;
    said.push('\n')?;
    Ok(())
}

fn said_outcome(alloc: Global, outcome: &Outcome) -> Result<String, Fault> {
    let mut said = String::new(alloc);
    push_end(&mut said, outcome.status)?;
    writeln!(said, ", {} readings", outcome.readings)?;
    push_indented(&mut said, &outcome.given)?;
    Ok(said)
}

// Writes over bytes of area A.
fn scribble(alloc: Global, disk: &mut MemDisk, part: &str) -> Result<(), Fault> {
    let (at, digits) = first_word(part);
    let at = number(at)?;
    let bytes = bytes_of(alloc, digits)?;
    if at > disk.size(Area::A)? {
        return Err(Fault::NoCase);
    }
    disk.write_at(Area::A, at, &bytes)?;
    Ok(())
}

// Cuts area A.
fn cut(disk: &mut MemDisk, size: &str) -> Result<(), Fault> {
    let size = number(size)?;
    if size > disk.size(Area::A)? {
        return Err(Fault::NoCase);
    }
    disk.cut(Area::A, size)?;
    Ok(())
}
