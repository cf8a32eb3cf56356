//! The part `scripts`: a script that is gathered line by line, and run.

use crate::fault::Fault;
use crate::frame;
use crate::outside::{CLOCK, Handed, Outcome, command, make_store};
use crate::series::{Series, written_out};
use crate::words::{asks, first_word, number};
use au_io::{MemClock, MemDisk};
use au_main::Status;
use std::alloc::Global;
use std::mem;
use std::str::Lines;

/// A script that is gathered, and the disk and the clock with which it is to be run.
#[derive(Drop)]
pub struct Script {
    disk: MemDisk,
    clock: MemClock,
    lines: String,
}

impl Script {
    /// Nothing was gathered yet.
    pub fn new(alloc: Global) -> Result<Script, Fault> {
        Ok(Script {
            disk: MemDisk::new(alloc, &[])?,
            clock: CLOCK,
            lines: String::new(alloc),
        })
    }

    /// Gathers the line; or, where it begins the next script, ends the one before, and adds what came
    /// of that.
    pub fn add(&mut self, alloc: Global, line: &str, said: &mut String) -> Result<(), Fault> {
        match line.strip_prefix("## ") {
            None => writeln!(self.lines, "{line}")?,
            Some(head) => {
                self.end(alloc, said)?;
                self.begin(alloc, head)?;
                writeln!(said, "{line}")?;
            }
        }
        Ok(())
    }

    // Begins the next script, with a clock of the two numbers of the line, on a new store or again on
    // the last one; or appends a frame to the journal of that one.
    fn begin(&mut self, alloc: Global, head: &str) -> Result<(), Fault> {
        let (word, rest) = first_word(head);
        match word {
            "new" => {
                self.clock = clock_of(rest)?;
                make_store(alloc, &mut self.disk)
            }
            "again" => {
                self.clock = clock_of(rest)?;
                Ok(())
            }
            "frame" => frame::append(alloc, &mut self.disk, rest),
            _ => Err(Fault::NoCase),
        }
    }

    /// Runs the script, where a line of it asks, and adds its lines with what was answered to them.
    pub fn end(&mut self, alloc: Global, said: &mut String) -> Result<(), Fault> {
        let lines = mem::replace(&mut self.lines, String::new(alloc));
        self.run(alloc, &lines, said)
    }

    fn run(&mut self, alloc: Global, lines: &str, said: &mut String) -> Result<(), Fault> {
        if !lines.lines().any(asks) {
            said.push_str(lines)?;
            return Ok(());
        }
        let script = written_out(alloc, lines)?;
        let ran = command(
            alloc,
            "run",
            &Handed::of(&script, self.clock),
            &mut self.disk,
        )?;
        push_run(said, lines, &ran)
    }
}

fn clock_of(numbers: &str) -> Result<MemClock, Fault> {
    let (first, step) = first_word(numbers);
    Ok(MemClock {
        next: number(first)?,
        step: number(step)?,
    })
}

// Adds the lines with their answers, and how the run ended, where that isn't that all was done.
fn push_run(said: &mut String, lines: &str, ran: &Outcome) -> Result<(), Fault> {
    push_lines(said, lines, &ran.given)?;
    let status = ran.status;
    if status != Status::Done {
        writeln!(said, "  {status}")?;
    }
    Ok(())
}

// Adds the lines of the script, and behind each that asks its answers.
fn push_lines(said: &mut String, lines: &str, given: &str) -> Result<(), Fault> {
    let mut answers = given.lines();
    for line in lines.lines() {
        writeln!(said, "{line}")?;
        if asks(line) {
            push_answers(said, line, &mut answers)?;
        }
    }
    Ok(())
}

// Adds the next answer, or those to each line for which this one stands.
fn push_answers(said: &mut String, line: &str, answers: &mut Lines<'_>) -> Result<(), Fault> {
    let mut last = next_of(answers);
    let mut times = 1u64;
    if let Some(series) = Series::read(line) {
        for _number in series.first..series.last {
            let answer = next_of(answers);
            if answer != last {
                push_times(said, times, last)?;
                times = 0;
            }
            last = answer;
            times = times.saturating_add(1);
        }
    }
    push_times(said, times, last)
}

fn next_of<'a>(answers: &mut Lines<'a>) -> &'a str {
    answers.next().unwrap_or("nothing")
}

// Adds an answer that came so many times.
fn push_times(said: &mut String, times: u64, answer: &str) -> Result<(), Fault> {
    match times {
        1 => writeln!(said, "  {answer}")?,
        _ => writeln!(said, "  {times} times {answer}")?,
    }
    Ok(())
}
