//! The parts of standard input, and what comes of a line of each.

use crate::bench::Bench;
use crate::case::push_case;
use crate::fault::Fault;
use crate::script::Script;
use crate::words::asks;
use std::alloc::Global;
use std::sync::Wait;
use std::thread::Threads;

/// The kind of lines that come.
#[derive(Clone, Copy)]
enum Part {
    Commands,
    Crashes,
    Scripts,
}

/// The part that the next line stands in, and what the lines before it set up.
#[derive(Drop)]
pub struct Trials {
    part: Part,
    bench: Bench,
    script: Script,
}

impl Trials {
    /// No line was read yet.
    pub fn new(alloc: Global) -> Result<Trials, Fault> {
        let bench = Bench::new(alloc)?;
        Ok(Trials {
            part: Part::Commands,
            script: Script::new(alloc)?,
            bench,
        })
    }

    /// Adds the line and what comes of it. Lines of a script are added once it ends.
    pub fn answer<R: Threads + Wait + Sync>(
        &mut self,
        rt: &R,
        alloc: Global,
        line: &str,
        said: &mut String,
    ) -> Result<(), Fault> {
        if let Some(name) = line.strip_prefix("=== ") {
            self.end(alloc, said)?;
            self.part = part_of(name)?;
            writeln!(said, "{line}")?;
            return Ok(());
        }
        match self.part {
            Part::Scripts => self.script.add(alloc, line, said),
            Part::Commands | Part::Crashes => self.answer_line(rt, alloc, line, said),
        }
    }

    fn answer_line<R: Threads + Wait + Sync>(
        &mut self,
        rt: &R,
        alloc: Global,
        line: &str,
        said: &mut String,
    ) -> Result<(), Fault> {
        writeln!(said, "{line}")?;
        if !asks(line) {
            return Ok(());
        }
        match self.part {
            Part::Commands => self.bench.answer(rt, alloc, line, said),
            Part::Crashes | Part::Scripts => push_case(alloc, line, said),
        }
    }

    /// Ends the script that is being gathered, and adds what comes of it.
    pub fn end(&mut self, alloc: Global, said: &mut String) -> Result<(), Fault> {
        self.script.end(alloc, said)
    }
}

fn part_of(name: &str) -> Result<Part, Fault> {
    match name {
        "commands" => Ok(Part::Commands),
        "crashes" => Ok(Part::Crashes),
        "scripts" => Ok(Part::Scripts),
        _ => Err(Fault::NoCase),
    }
}
